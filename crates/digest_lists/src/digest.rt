//! One digest that is set.
ghost use Rattle.std.specs.Prelude.{◌≡◌, ◌==◌, ◌++◌, [], ◌∷◌, ◌<◌, ◌≤◌, false, not, vec_len, vec_capacity, length, filter, take, drop, IfOk, OnOk, OnErr};
ghost use Rattle.digest_lists.specs.State.{natural, list_size, new_digest};
ghost use Rattle.digest_lists.specs.Sending.{is_fresh, is_passed_over, is_full, first_is_old, is_due, list_of, newest_64, after_sending, sent_by_sample, after_sample, after_ack, timestamp_of};

use crate::samples::{self, SentList, TakenSample};
use list_types::{List, NoMemory};
use p4_types::messages::{DigestConfig, DigestList, P4Data};
use std::alloc::Global;
use std::marker::Model;
use std::mem;

/// The most lists of a digest that wait for their acknowledgement.
const WAITING_LIMIT: usize = 64;

fn natural(number: i64) -> u64
    ensures { result ≡ natural number }
{
    if number < 0 { 0 } else { number as u64 }
}

fn list_size(config: &DigestConfig) -> u64
    ensures { result ≡ list_size config.now }
{
    match natural(i64::from(config.max_list_size)) {
        0 => 64,
        size => size,
    }
}

fn timestamp_of(now: u64) -> i64
    ensures { result ≡ timestamp_of now }
{
    now.min(i64::MAX as u64) as i64
}

fn first_is_old(samples: &[TakenSample], age: u64, now: u64) -> bool
    ensures { result ≡ first_is_old samples.now age now }
{
    match samples {
        [] => false,
        [first, ..] => now.saturating_sub(first.taken_at) >= age,
    }
}

fn is_fresh(config: &DigestConfig, now: u64, sent: &SentList) -> bool
    ensures { result ≡ is_fresh config.now now sent.now }
{
    now.saturating_sub(sent.sent_at) < natural(config.ack_timeout_ns)
}

fn put_newest(waiting: &mut Vec<SentList>, list: SentList)
    requires few { vec_len waiting.old ≤ 64 }
    requires room { vec_len waiting.old < vec_capacity waiting.old }
    ensures items { waiting.new.items ≡ newest_64 (waiting.old.items ++ list ∷ []) }
    ensures few { vec_len waiting.new ≤ 64 }
{
    if waiting.len() >= WAITING_LIMIT {
        drop(waiting.remove(0));
    }
    waiting.push_reserved(list);
}

fn forget(waiting: &mut Vec<SentList>, list: u64)
    ensures items { waiting.new.items ≡ filter (λ sent. not (sent.list_id == list)) waiting.old.items }
    ensures few { vec_len waiting.new ≤ vec_len waiting.old }
{
    waiting.retain(|sent| sent.list_id != list);
}

/// A digest that is set: its samples that are not sent yet, and its lists that wait, both oldest first.
#[derive(Drop)]
pub(crate) struct Digest {
    id: u32,
    config: DigestConfig,
    gathered: Vec<TakenSample>,
    waiting: Vec<SentList>,
    last_list: u64,
}

impl Model for Digest {
    ghost use Rattle.std.specs.Prelude.{vec_len, ◌≤◌};
    ghost use Rattle.digest_lists.specs.State.{DigestState};

    ghost Value = { DigestState };

    ghost view = { λ digest. record { id = digest.id; config = digest.config; gathered = digest.gathered.items; waiting = digest.waiting.items; last_list = digest.last_list } };

    ghost invariant = { λ digest. vec_len digest.waiting ≤ 64 };
}

impl Digest {
    pub(crate) fn new(alloc: Global, id: u32, config: DigestConfig) -> Digest
        ensures { result ≡ new_digest id config }
    {
        Digest {
            id,
            config,
            gathered: Vec::new(alloc),
            waiting: Vec::new(alloc),
            last_list: 0,
        }
    }

    pub(crate) fn id(&self) -> u32
        ensures { result ≡ self.now.id }
    {
        self.id
    }

    pub(crate) fn configure(&mut self, config: DigestConfig)
        ensures { self.new ≡ record self.old { config = config } }
    {
        self.config = config;
    }

    fn passes_over(&self, content: &P4Data, now: u64) -> bool
        ensures { result ≡ is_passed_over self.now content.now now }
    {
        let config = self.config;
        self.waiting.iter().any(|sent| is_fresh(&config, now, sent)
            && samples::has_sample(content, sent))
    }

    fn is_full(&self) -> bool
        ensures { result ≡ is_full self.now }
    {
        list_size(&self.config) <= self.gathered.len() as u64
    }

    pub(crate) fn is_due(&self, now: u64) -> bool
        ensures { result ≡ is_due self.now now }
    {
        self.is_full() || first_is_old(&self.gathered, natural(self.config.max_timeout_ns), now)
    }

    fn next_size(&self) -> usize
        ensures within { result ≤ length self.now.gathered }
        ensures next { take result self.now.gathered ≡ take (list_size self.now.config) self.now.gathered }
        ensures rest { drop result self.now.gathered ≡ drop (list_size self.now.config) self.now.gathered }
    {
        let size = list_size(&self.config);
        let gathered = self.gathered.len();
        if size < gathered as u64 {
            size as usize
        } else {
            gathered
        }
    }

    /// Sends the next list. Without memory for its copy nothing changes.
    pub(crate) fn send(&mut self, alloc: Global, now: u64) -> Result<DigestList, NoMemory>
        ensures sent { IfOk result (λ list. list ≡ list_of self.old now) }
        ensures state { OnOk result (self.new ≡ after_sending self.old now) }
        ensures kept { OnErr result (self.new ≡ self.old) }
    {
        let size = self.next_size();
        let content = samples::copy_contents(alloc, &self.gathered[..size])?;
        self.waiting.reserve(1)?;
        let rest = self.gathered.split_off(size)?;
        let samples = List::from_vec(mem::replace(&mut self.gathered, rest));
        let list_id = self.last_list.saturating_add(1);
        self.last_list = list_id;
        let sent = SentList {
            list_id,
            sent_at: now,
            samples,
        };
        put_newest(&mut self.waiting, sent);
        Ok(DigestList {
            digest_id: self.id,
            list_id,
            content,
            timestamp: timestamp_of(now),
        })
    }

    /// Takes a sample, and sends the list that it makes due. Without memory nothing changes. A sample that is passed over asks for none.
    pub(crate) fn sample(
        &mut self,
        alloc: Global,
        content: P4Data,
        now: u64,
    ) -> Result<Option<DigestList>, NoMemory>
        ensures sent { IfOk result (λ sent. sent ≡ sent_by_sample self.old content now) }
        ensures state { OnOk result (self.new ≡ after_sample self.old content now) }
        ensures kept { OnErr result (self.new ≡ self.old) }
        ensures taken { OnErr result (is_passed_over self.old content now ≡ false) }
    {
        if self.passes_over(&content, now) {
            return Ok(None);
        }
        let taken_at = now;
        self.gathered.push(TakenSample { content, taken_at })?;
        if !self.is_full() {
            return Ok(None);
        }
        match self.send(alloc, now) {
            Ok(list) => Ok(Some(list)),
            Err(NoMemory) => {
                drop(self.gathered.pop());
                Err(NoMemory)
            }
        }
    }

    pub(crate) fn acknowledge(&mut self, list: u64)
        ensures { self.new ≡ after_ack self.old list }
    {
        forget(&mut self.waiting, list);
    }
}

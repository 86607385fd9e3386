//! Headers and fields.
use bm_expr::{FieldPlace, HeaderPlace};
use list_types::List;

/// What a program reads as a field: one of a header's, or whether a header is valid (`$valid$`), a number of one bit.
#[derive(Clone, Copy)]
pub enum FieldRef {
    Field(FieldPlace),
    /// The header by its place among the headers.
    Valid(usize),
}

/// A header with its fields, which stand side by side in a packet and in the store.
#[derive(Drop)]
pub struct Header {
    pub place: HeaderPlace,
    /// Whether it is metadata: it is valid from the start, and never extracted as such.
    pub metadata: bool,
    /// The widths of its fields in bits, each 1 to 128.
    pub widths: List<u32>,
    /// Its width in bits: that of all its fields.
    pub bits: usize,
}

/// The fields of `standard_metadata` that the switch reads or sets, as far as the program has them.
#[derive(Clone, Copy)]
pub struct StandardMetadata {
    pub ingress_port: Option<FieldPlace>,
    pub packet_length: Option<FieldPlace>,
    /// 9 bits wide.
    pub egress_spec: FieldPlace,
    pub egress_port: Option<FieldPlace>,
    pub egress_rid: Option<FieldPlace>,
    pub mcast_grp: Option<FieldPlace>,
    pub parser_error: Option<FieldPlace>,
    pub checksum_error: Option<FieldPlace>,
}

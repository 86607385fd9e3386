// Laws of datagrams.
ghost use Rattle.real_net.specs.Datagrams.{OneReading};

/// A datagram has one reading: no two ports, and no two packets, have the same one.
#[tactic(auto, using(crate::proofs::DatagramLaws::one_reading))]
pub fn datagrams_have_one_reading()
    ensures one { OneReading }
{}

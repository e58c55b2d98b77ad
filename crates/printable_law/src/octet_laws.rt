//! The laws of the definitions, each as the contract of a function.
ghost use Rattle.printable_law.specs.OctetLaw.{MessagesHaveOctets, AddressesHaveOctets};
ghost use Rattle.printable_law.specs.Ranges.{RoutingKeepsRanges, ManagementKeepsRanges};

/// What a message has that is read of octets are octets again, a fault names no greater number than two octets hold, and the spelling of a message that
/// has octets are octets.
#[tactic(auto, using(crate::proofs::Messages::messages_have_octets))]
pub fn messages_have_octets()
    ensures { MessagesHaveOctets }
{}

/// What an address has that is read of octets fits the octets that it is spelled in, and so its spelling are octets, also as routing sends it on.
#[tactic(auto, using(crate::proofs::Addresses::addresses_have_octets))]
pub fn addresses_have_octets()
    ensures { AddressesHaveOctets }
{}

/// Routing data in their ranges answer in range what is asked in range, and stay so through changes in range.
#[tactic(auto, using(crate::proofs::Routing::routing_keeps_ranges))]
pub fn routing_keeps_ranges()
    ensures { RoutingKeepsRanges }
{}

/// Messages of management in their ranges are octets, and what is heard of octets is in its ranges.
#[tactic(auto, using(crate::proofs::Management::management_keeps_ranges))]
pub fn management_keeps_ranges()
    ensures { ManagementKeepsRanges }
{}

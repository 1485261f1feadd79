// What is added to a block. Only a header whose kind has marks carries a length indication.
use mac_resource::mac_resource::MacResource;

// The length that a MAC-RESOURCE is written with: its octets, or a mark that it takes the rest of the block.
#[derive(Clone, Copy)]
pub enum LengthIndication {
    Counted,
    SecondSlotStolen,
    FragStart,
}

// A MAC-RESOURCE to be added. The length and the fill flag of its header are not looked at.
#[derive(Clone, Copy)]
pub struct ResourceToAdd {
    pub header: MacResource,
    pub indication: LengthIndication,
}

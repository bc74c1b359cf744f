use taf_codes::Railway;
use taf_messages::ItemBody;

/// An item and the railway that it goes to.
#[derive(Debug, Drop)]
pub struct AddressedItem {
    pub to: Railway,
    pub body: ItemBody,
}

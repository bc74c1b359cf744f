//! Calls as JSON: the record of a message, or of a question.
ghost use Rattle.std.specs.Prelude.{◌≡◌, OnOk};
ghost use Rattle.json_tokens.specs.Texts.{AddsFields};
ghost use Rattle.reply_writer.specs.CallShapes as shape;

use crate::put::{Json, Object, put_field, put_object, put_text};
use json_tokens::Writer;
use std::alloc::AllocError;
use taf_codes::{ConsignmentId, Railway};
use taf_messages::Call;

impl Json for Call {
    ghost shape = { shape.call_data };

    fn put(&self, out: &mut Writer) -> Result<(), AllocError> {
        put_object(out, self)
    }
}

impl Object for Call {
    ghost members = { shape.call_fields };

    #[tactic(auto, unfolding(crate::specs::CallShapes::call_fields))]
    fn put_members(&self, out: &mut Writer) -> Result<(), AllocError> {
        match self {
            Call::Send(message) => message.get().put_members(out),
            Call::Ask { by, wagon } => {
                put_field(out, "from", by)?;
                put_text(out, "kind", "ask")?;
                put_field(out, "wagon", wagon)?;
                Ok(())
            }
            Call::AskUnit { by, unit } => {
                put_field(out, "from", by)?;
                put_text(out, "kind", "ask_unit")?;
                put_field(out, "unit", unit)?;
                Ok(())
            }
            Call::Deviation { by, consignment } => put_deviation(out, by, consignment),
            Call::Fetch { by, limit } => {
                put_field(out, "from", by)?;
                put_text(out, "kind", "fetch")?;
                put_field(out, "limit", limit)?;
                Ok(())
            }
            Call::Ack { by, item } => {
                put_field(out, "from", by)?;
                put_field(out, "item", item)?;
                put_text(out, "kind", "ack")?;
                Ok(())
            }
        }
    }
}

#[tactic(auto, unfolding(crate::specs::CallShapes::deviation_fields))]
fn put_deviation(
    out: &mut Writer,
    by: &Railway,
    consignment: &ConsignmentId,
) -> Result<(), AllocError>
    ensures ok { OnOk result
        (AddsFields out.old out.new (shape.deviation_fields by.now consignment.now)) }
    ensures before { out.new.before ≡ out.old.before }
{
    put_field(out, "consignment", consignment)?;
    put_field(out, "from", by)?;
    put_text(out, "kind", "deviation")?;
    Ok(())
}

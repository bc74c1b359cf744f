//! The lines of one wagon.
ghost use Rattle.std.specs.Prelude.{◌≡◌, is_some, IfOk};
ghost use Rattle.hub_shared.specs.declared.looks.WagonLook.{WagonLook};
ghost use Rattle.hub_shared.specs.Looks.{IsWagonLook};
ghost use Rattle.call_lines.specs.Lines.{reply_text};
ghost use Rattle.board_texts.specs.Lines.{as_line, legs_told};

use crate::line::into_line;
use crate::lists::wagon_legs;
use hub_shared::{HubLooks, LookFault, WagonLook};
use reply_writer::{write_reply, write_wagon_legs};
use std::alloc::Global;
use taf_codes::{Memory, Railway};
use wagon_number::WagonNumber;

/// A line about one wagon, and whether the railway may see it; else the line is the refusal.
#[derive(Drop)]
pub struct WagonLine {
    pub text: Vec<u8>,
    pub is_shown: bool,
}

/// What the railway is told of the wagon: the reply that its question for it would get.
pub fn wagon_line<V: HubLooks>(
    alloc: Global,
    hub: &V,
    by: Railway,
    wagon: WagonNumber,
) -> Result<WagonLine, LookFault>
    ensures { IfOk result (λ line. (look : WagonLook) × IsWagonLook by wagon look
        × (line.text.items ≡ as_line (reply_text look.reply))
        × (line.is_shown ≡ is_some look.shown)) }
{
    let look = hub.wagon(by, wagon)?;
    Ok(reply_line(alloc, &look)?)
}

/// The legs of the wagon, or the reply where the railway may not see it.
pub fn wagon_legs_line<V: HubLooks>(
    alloc: Global,
    hub: &V,
    by: Railway,
    wagon: WagonNumber,
) -> Result<WagonLine, LookFault>
    ensures { IfOk result (λ line. (look : WagonLook) × IsWagonLook by wagon look
        × (line.text.items ≡ as_line (legs_told look))
        × (line.is_shown ≡ is_some look.shown)) }
{
    let look = hub.wagon(by, wagon)?;
    match &look.shown {
        Some(shown) => {
            let text = write_wagon_legs(alloc, &wagon_legs(shown)).map_err(|_| LookFault::Memory)?;
            let text = into_line(text)?;
            Ok(WagonLine {
                text,
                is_shown: true,
            })
        }
        None => Ok(reply_line(alloc, &look)?),
    }
}

// The line of what the railway is told.
fn reply_line(alloc: Global, look: &WagonLook) -> Result<WagonLine, Memory>
    ensures { IfOk result (λ line. (line.text.items ≡ as_line (reply_text look.now.reply))
        × (line.is_shown ≡ is_some look.now.shown)) }
{
    let text = into_line(write_reply(alloc, &look.reply)?)?;
    Ok(WagonLine {
        text,
        is_shown: look.shown.is_some(),
    })
}

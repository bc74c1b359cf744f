//! Texts out: compact JSON with keys in byte order, without a newline.
ghost use Rattle.std.specs.Prelude.{◌≡◌, ◌≢◌, ◌++◌, [], OnOk, OnErr, IfOk};
ghost use Rattle.json.specs.Tree.{json_tokens};
ghost use Rattle.serde_json.specs.Read.{read};
ghost use Rattle.serde_json.specs.Written.{compact_text, outline};
ghost use Rattle.json_tokens.specs.Texts.{AreSmall};
ghost use Rattle.reply_writer.specs.ReplyShapes.{reply_data, item_data, fault_data};
ghost use Rattle.reply_writer.specs.RecordShapes.{record_data};
ghost use Rattle.reply_writer.specs.CallShapes.{call_data};
ghost use Rattle.taf_messages.specs.declared.fault.RecordFault.TheVariants.{Memory as NoMemory};

use crate::accepted::append_accepted;
use crate::put::Json;
use json_tokens::{Buffer, Writer};
use std::alloc::Global;
use std::mem;
use taf_codes::Memory;
use taf_messages::{Call, Item, Record, RecordFault, Reply};

/// The text of a reply.
pub fn write_reply(alloc: Global, reply: &Reply) -> Result<Vec<u8>, Memory>
    ensures text { IfOk result (λ text. text.items ≡ compact_text (reply_data reply.now)) }
    ensures read_back { IfOk result (λ text. read text.items ≡ Some (reply_data reply.now)) }
{
    text_of(alloc, reply)
}

/// The text of an item.
pub fn write_item(alloc: Global, item: &Item) -> Result<Vec<u8>, Memory>
    ensures text { IfOk result (λ text. text.items ≡ compact_text (item_data item.now)) }
    ensures read_back { IfOk result (λ text. read text.items ≡ Some (item_data item.now)) }
{
    text_of(alloc, item)
}

/// The text of a wagon's record (4.2.11).
pub fn write_record(alloc: Global, shown: &Record) -> Result<Vec<u8>, Memory>
    ensures text { IfOk result (λ text. text.items ≡ compact_text (record_data shown.now)) }
    ensures read_back { IfOk result (λ text. read text.items ≡ Some (record_data shown.now)) }
{
    text_of(alloc, shown)
}

/// The text of a record's fault.
pub fn write_fault(alloc: Global, fault: &RecordFault) -> Result<Vec<u8>, Memory>
    requires { fault.now ≢ NoMemory }
    ensures text { IfOk result (λ text. text.items ≡ compact_text (fault_data fault.now)) }
    ensures read_back { IfOk result (λ text. read text.items ≡ Some (fault_data fault.now)) }
{
    text_of(alloc, fault)
}

/// Appends the text of a reply. Where memory is refused, nothing is appended.
pub fn append_reply(alloc: Global, out: &mut Buffer, reply: &Reply) -> Result<(), Memory>
    ensures ok { OnOk result (out.new.items ≡ out.old.items
        ++ compact_text (reply_data reply.now)) }
    ensures read_back { OnOk result (read (compact_text (reply_data reply.now))
        ≡ Some (reply_data reply.now)) }
    ensures err { OnErr result (out.new.items ≡ out.old.items) }
{
    match reply {
        Reply::Accepted { no } => append_accepted(out, *no),
        _ => append(alloc, out, reply),
    }
}

/// Appends the text of a call: the record by which a railway makes it. Where memory is refused, nothing is appended.
pub fn append_call(alloc: Global, out: &mut Buffer, call: &Call) -> Result<(), Memory>
    ensures ok { OnOk result (out.new.items ≡ out.old.items
        ++ compact_text (call_data call.now)) }
    ensures err { OnErr result (out.new.items ≡ out.old.items) }
{
    append(alloc, out, call)
}

/// Appends the text of a record's fault. Where memory is refused, nothing is appended.
pub fn append_fault(alloc: Global, out: &mut Buffer, fault: &RecordFault) -> Result<(), Memory>
    requires { fault.now ≢ NoMemory }
    ensures ok { OnOk result (out.new.items ≡ out.old.items
        ++ compact_text (fault_data fault.now)) }
    ensures read_back { OnOk result (read (compact_text (fault_data fault.now))
        ≡ Some (fault_data fault.now)) }
    ensures err { OnErr result (out.new.items ≡ out.old.items) }
{
    append(alloc, out, fault)
}

/// The text of a value.
pub(crate) fn text_of<T: Json>(alloc: Global, value: &T) -> Result<Vec<u8>, Memory>
    ensures text { IfOk result (λ text. text.items ≡ compact_text (T.shape value.now)) }
    ensures small { OnOk result (AreSmall (json_tokens (outline (T.shape value.now)))) }
{
    let mut out = Writer::new(Buffer::new(Vec::with_capacity(alloc, 512)?));
    value.put(&mut out)?;
    Ok(out.into_inner().into_vec())
}

fn append<T: Json>(alloc: Global, out: &mut Buffer, value: &T) -> Result<(), Memory>
    ensures ok { OnOk result (out.new.items ≡ out.old.items ++ compact_text (T.shape value.now)) }
    ensures small { OnOk result (AreSmall (json_tokens (outline (T.shape value.now)))) }
    ensures err { OnErr result (out.new.items ≡ out.old.items) }
{
    let before = out.len();
    let mut writer = Writer::new(mem::replace(out, Buffer::new(Vec::new(alloc))));
    let put = value.put(&mut writer);
    *out = writer.into_inner();
    match put {
        Ok(()) => Ok(()),
        Err(_) => {
            out.truncate(before);
            Err(Memory)
        }
    }
}

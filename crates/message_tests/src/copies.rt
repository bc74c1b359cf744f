//! Equality and copies. A copy equals its source, and has its text.
use crate::checks::{is_text, shown};
use crate::items::items;
use crate::lines::{MESSAGES, QUESTIONS, messages};
use crate::replies::replies;
use call_reader::read_call;
use reply_writer::{write_item, write_reply};
use std::alloc::Global;
use std::test::Fail;
use taf_messages::{
    Call, Item, ItemBody, Message, Reply, Shared, copy, copy_call, copy_item, copy_reply, same,
    same_call, same_item, same_reply,
};

// Whether of the messages the one at this place, and no other, says the same as this.
fn is_same_message(messages: &[Shared<Message>], place: usize, message: &Message) -> bool {
    for (i, other) in messages.iter().enumerate() {
        if same(message, other.get()) != (i == place) {
            return false;
        }
    }
    true
}

#[test]
fn equal_messages(rt: HostRuntime) -> Result<(), Fail> {
    let messages = messages(rt.alloc())?;
    for (place, message) in messages.iter().enumerate() {
        assert!(rt; is_same_message(&messages, place, message.get()));
    }
    Ok(())
}

// The text of the notice of a message.
fn notice(alloc: Global, message: Shared<Message>) -> Result<Vec<u8>, Fail> {
    let body = ItemBody::Notice(message);
    Ok(write_item(alloc, &Item { number: 1, body })?)
}

fn copied(alloc: Global, message: &Message) -> Result<Shared<Message>, Fail> {
    Ok(Shared::new(alloc, copy(message)?)?)
}

// Whether the copy of the message equals it.
fn is_message_copied(alloc: Global, message: &Message) -> Result<bool, Fail> {
    let copied = copied(alloc, message)?;
    Ok(same(copied.get(), message))
}

// Whether the notice of the message's copy has the text of the message's.
fn has_its_text(alloc: Global, message: &Shared<Message>) -> Result<bool, Fail> {
    let text = notice(alloc, copied(alloc, message.get())?)?;
    Ok(text == notice(alloc, message.clone()?)?)
}

#[test]
fn copies_of_messages(rt: HostRuntime) -> Result<(), Fail> {
    for message in messages(rt.alloc())?.iter() {
        assert!(rt; is_message_copied(rt.alloc(), message.get())?);
        assert!(rt; has_its_text(rt.alloc(), message)?);
    }
    Ok(())
}

fn calls(alloc: Global) -> Result<Vec<Call>, Fail> {
    let mut calls = Vec::new(alloc);
    for line in MESSAGES.lines().chain(QUESTIONS.lines()) {
        calls.push(read_call(alloc, line.as_bytes())?)?;
    }
    Ok(calls)
}

// Whether of the calls the one at this place, and no other, is the same as this.
fn is_same_call(calls: &[Call], place: usize, call: &Call) -> bool {
    for (i, other) in calls.iter().enumerate() {
        if same_call(call, other) != (i == place) {
            return false;
        }
    }
    true
}

#[test]
fn copies_of_calls(rt: HostRuntime) -> Result<(), Fail> {
    let calls = calls(rt.alloc())?;
    for (place, call) in calls.iter().enumerate() {
        assert!(rt; is_same_call(&calls, place, call));
        assert!(rt; copy_call(call)? == *call);
    }
    Ok(())
}

// Whether of the items the one at this place, and no other, is the same as this.
fn is_same_item(items: &[Item], place: usize, item: &Item) -> bool {
    for (i, other) in items.iter().enumerate() {
        if same_item(item, other) != (i == place) {
            return false;
        }
    }
    true
}

#[test]
fn copies_of_items(rt: HostRuntime) -> Result<(), Fail> {
    let items = items(rt.alloc())?;
    for (place, item) in items.iter().enumerate() {
        assert!(rt; is_same_item(&items, place, item));
        assert!(rt; copy_item(item)? == *item);
    }
    Ok(())
}

// Whether of the replies the one at this place, and no other, is the same as this.
fn is_same_reply(replies: &[Reply], place: usize, reply: &Reply) -> bool {
    for (i, other) in replies.iter().enumerate() {
        if same_reply(reply, other) != (i == place) {
            return false;
        }
    }
    true
}

// Fails unless the reply is another's copy, and has its text.
fn is_copy(alloc: Global, copied: &Reply, reply: &Reply) -> Result<(), Fail> {
    if *copied != *reply {
        return Err(Fail::new("another reply"));
    }
    let text = write_reply(alloc, reply)?;
    is_text(write_reply(alloc, copied), shown(&text))
}

#[test]
fn copies_of_replies(rt: HostRuntime) -> Result<(), Fail> {
    let replies = replies(rt.alloc())?;
    for (place, reply) in replies.iter().enumerate() {
        assert!(rt; is_same_reply(&replies, place, reply));
        is_copy(rt.alloc(), &copy_reply(reply)?, reply)?;
    }
    Ok(())
}

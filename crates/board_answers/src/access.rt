//! Who may ask.
ghost use Rattle.std.specs.Prelude.{◌≡◌, map, string_bytes, IfOk};
ghost use Rattle.board_answers.specs.Hosts.{hosts_at};

use railway_keys::KeyTable;
use std::alloc::{AllocError, Global};
use std::marker::Model;

// The port of http where none is named.
const HTTP_PORT: u16 = 80;

/// The hosts of the board, each with its port, and the keys of railways. Where there are no keys, none is asked for.
///
/// Contracts see it as the texts of the hosts, and the table.
#[derive(Drop)]
pub struct Access<'a> {
    pub hosts: &'a [String],
    pub keys: Option<&'a KeyTable>,
}

impl<'a> Model for Access<'a> {
    ghost use Rattle.std.specs.Prelude.{option_map};
    ghost use Rattle.board_answers.specs.Requests.{AccessState};

    ghost Value = { AccessState };

    ghost view = { λ a. record { hosts = a.hosts.now; keys = option_map (λ k. k.now) a.keys } };
}

/// The hosts of a board at this port of the machine. Browsers leave out the port of http.
pub fn hosts_of(alloc: Global, port: u16) -> Result<Vec<String>, AllocError>
    ensures { IfOk result (λ hosts. map string_bytes hosts.items ≡ hosts_at port) }
{
    let mut hosts = Vec::with_capacity(alloc, 4)?;
    hosts.push(format!(in alloc; "127.0.0.1:{port}")?)?;
    hosts.push(format!(in alloc; "localhost:{port}")?)?;
    if port == HTTP_PORT {
        hosts.push(String::from_str(alloc, "127.0.0.1")?)?;
        hosts.push(String::from_str(alloc, "localhost")?)?;
    }
    Ok(hosts)
}

//! Whether a request is answered.
ghost use Rattle.std.specs.Prelude.{◌≡◌, option_copied, MatchResult};
ghost use Rattle.board_answers.specs.Requests.{IsAdmitted, IsRefused, is_host_of, is_own_host, is_own_origin, is_page_of, is_page_of_any, is_reading, is_let_in, owner_of, key_of};

use crate::access::Access;
use crate::refusal::Refusal;
use board_paths::{Resource, resource_of};
use bytes::Bytes;
use http::{Request, header};
use taf_codes::Railway;

// The resource that a request asks for, or why it is refused.
pub(crate) fn admit(access: &Access<'_>, request: &Request<Bytes>) -> Result<Resource, Refusal>
    ensures { MatchResult result
        (IsAdmitted access.now request.now) (IsRefused access.now request.now) }
{
    if !is_own_host(access, request) {
        return Err(Refusal::OtherHost);
    }
    if !is_own_origin(access, request) {
        return Err(Refusal::OtherOrigin);
    }
    if !is_reading(request) {
        return Err(Refusal::OtherMethod);
    }
    let Some(resource) = resource_of(request.uri().path().as_bytes()) else {
        return Err(Refusal::NoSuchPath);
    };
    if is_let_in(access, &resource, request) {
        Ok(resource)
    } else {
        Err(Refusal::NoKey)
    }
}

// Whether the request is to one of the board's hosts.
fn is_own_host(access: &Access<'_>, request: &Request<Bytes>) -> bool
    ensures { result ≡ is_own_host access.now request.now }
{
    match request.headers().get(header::HOST) {
        Some(host) => is_host_of(access.hosts, host.as_bytes()),
        None => false,
    }
}

// Whether this is one of the hosts.
fn is_host_of(hosts: &[String], host: &[u8]) -> bool
    ensures { result ≡ is_host_of hosts.now host.now }
{
    hosts.iter().any(|own| own.as_bytes() == host)
}

// Whether the request is of a page of the board, or of none.
fn is_own_origin(access: &Access<'_>, request: &Request<Bytes>) -> bool
    ensures { result ≡ is_own_origin access.now request.now }
{
    match request.headers().get(header::ORIGIN) {
        Some(origin) => is_page_of_any(access.hosts, origin.as_bytes()),
        None => true,
    }
}

// Whether the origin is that of one of these hosts, by http.
fn is_page_of_any(hosts: &[String], origin: &[u8]) -> bool
    ensures { result ≡ is_page_of_any hosts.now origin.now }
{
    hosts.iter().any(|own| is_page_of(origin, own.as_str()))
}

// Whether the origin is that of this host, by http.
fn is_page_of(origin: &[u8], host: &str) -> bool
    ensures { result ≡ is_page_of origin.now host.now }
{
    match origin.strip_prefix(b"http://".as_slice()) {
        Some(named) => named == host.as_bytes(),
        None => false,
    }
}

// Whether the method is GET or HEAD.
fn is_reading(request: &Request<Bytes>) -> bool
    ensures { result ≡ is_reading request.now }
{
    matches!(request.method().as_str(), "GET" | "HEAD")
}

// Whether the request has the key of the railway whose wagons are asked for, where there are keys.
fn is_let_in(access: &Access<'_>, resource: &Resource, request: &Request<Bytes>) -> bool
    ensures { result ≡ is_let_in access.now resource.now request.now }
{
    match (access.keys, owner_of(resource)) {
        (Some(keys), Some(by)) => match key_of(request) {
            Some(key) => keys.admits(by, key),
            None => false,
        },
        _ => true,
    }
}

// The railway to which wagons are shown by a resource, if there is one.
fn owner_of(resource: &Resource) -> Option<Railway>
    ensures { result ≡ owner_of resource.now }
{
    match resource {
        Resource::Wagons(by)
        | Resource::Legs(by)
        | Resource::Wagon(by, _)
        | Resource::WagonLegs(by, _) => Some(*by),
        Resource::Entry | Resource::Page(_) | Resource::Health | Resource::Metrics => None,
    }
}

// The key that the request has.
fn key_of(request: &Request<Bytes>) -> Option<&[u8]>
    ensures { option_copied result ≡ key_of request.now }
{
    let value = request.headers().get(header::AUTHORIZATION)?;
    value.as_bytes().strip_prefix(b"Bearer ".as_slice())
}

//! Each request to its answer.
ghost use Rattle.std.specs.Prelude.{◌≡◌, [], ◌++◌, codes, Some, IsTrue, OnOk};
ghost use Rattle.http_server.specs.Response.{IsBlank, IsResponse, fields_of};
ghost use Rattle.board_answers.specs.Answers.{AreMetrics, IsAnswered, IsList, Shows, SaysRefusal, data_fields, page_fields, status_for, text_of, typed_fields};
ghost use Rattle.board_answers.specs.Requests.{value_of};

use crate::access::Access;
use crate::admission::admit;
use crate::gauges::Gauges;
use crate::metrics::{Metrics, metrics_of};
use crate::refusal::Refusal;
use crate::sending::{add, add_tag, begin, begin_typed, begin_unchanged, give};
use crate::tag::tag_of;
use board_page::{HEAD, POLICY, TAIL};
use board_paths::Resource;
use board_texts::{WagonLine, legs_line, refusals_seen, wagon_legs_line, wagon_line, wagons_line};
use bytes::Bytes;
use http::{Request, StatusCode, header};
use http_server::{Response, Service};
use hub_shared::{HubLooks, LookFault};
use std::alloc::{AllocError, Global};
use taf_codes::{Memory, Railway};

const HTML: &str = "text/html; charset=utf-8";

const JSON: &str = "application/json";

const PLAIN: &str = "text/plain; charset=utf-8";

const METRICS: &str = "text/plain; version=0.0.4";

/// Which list of a railway's wagons.
#[derive(Clone, Copy, Debug, PartialEq, Eq)]
pub enum ListOf {
    Records,
    Legs,
}

/// What shows the wagons of a hub to requests of HTTP.
#[derive(Drop)]
pub struct Board<'h, 'g, V, G> {
    alloc: Global,
    hub: &'h V,
    gauges: &'g G,
    access: Access<'h>,
    run: u64,
}

impl<'h, 'g, V: HubLooks, G: Gauges> Board<'h, 'g, V, G> {
    /// The board of a hub, beside the numbers of its server. The number tells this run of the hub from others.
    pub fn new(
        alloc: Global,
        hub: &'h V,
        gauges: &'g G,
        access: Access<'h>,
        run: u64,
    ) -> Board<'h, 'g, V, G>
        ensures access { result.access ≡ access.entry }
        ensures run { result.run ≡ run }
    {
        Board {
            alloc,
            hub,
            gauges,
            access,
            run,
        }
    }

    // Shows a resource.
    fn show(
        &self,
        request: &Request<Bytes>,
        resource: Resource,
        response: &mut Response,
    ) -> Result<(), LookFault>
        requires { IsBlank response.old }
        ensures { OnOk result (Shows self.now.run request.now resource response.new) }
    {
        match resource {
            Resource::Entry | Resource::Page(_) => Ok(show_page(response)?),
            Resource::Wagons(by) => self.show_list(request, by, ListOf::Records, response),
            Resource::Legs(by) => self.show_list(request, by, ListOf::Legs, response),
            Resource::Wagon(by, wagon) => {
                let line = wagon_line(self.alloc, self.hub, by, wagon)?;
                Ok(show_wagon(response, line)?)
            }
            Resource::WagonLegs(by, wagon) => {
                let line = wagon_legs_line(self.alloc, self.hub, by, wagon)?;
                Ok(show_wagon(response, line)?)
            }
            Resource::Health => Ok(show_health(response)?),
            Resource::Metrics => self.show_metrics(response),
        }
    }

    // Shows a list of what the railway may see, or that it is the one that the request has.
    fn show_list(
        &self,
        request: &Request<Bytes>,
        by: Railway,
        list: ListOf,
        response: &mut Response,
    ) -> Result<(), LookFault>
        requires { IsBlank response.old }
        ensures { OnOk result (IsList self.now.run request.now by (text_of list) response.new) }
    {
        let now = self.hub.counts()?;
        let tag = tag_of(self.alloc, self.run, now.calls)?;
        if has_tag(request, tag.as_slice()) {
            begin_unchanged(response)?;
            return Ok(add_tag(self.alloc, response, tag.as_slice())?);
        }
        let line = match list {
            ListOf::Records => wagons_line(self.alloc, self.hub, by, now.wagons)?,
            ListOf::Legs => legs_line(self.alloc, self.hub, by, now.wagons)?,
        };
        begin_typed(response, StatusCode::OK, JSON)?;
        add_tag(self.alloc, response, tag.as_slice())?;
        Ok(give(response, line)?)
    }
}

impl<'h, 'g, V: HubLooks, G: Gauges> Board<'h, 'g, V, G> {
    // Shows the numbers of the hub and of its server, as Prometheus reads them.
    fn show_metrics(&self, response: &mut Response) -> Result<(), LookFault>
        requires { IsBlank response.old }
        ensures { OnOk result (AreMetrics response.new) }
    {
        let before = self.gauges.microseconds();
        let counts = self.hub.counts()?;
        let look = self.gauges.microseconds().saturating_sub(before);
        let whys = refusals_seen(self.alloc, self.hub, counts.calls)?;
        let metrics = Metrics {
            counts,
            whys: whys.as_slice(),
            look,
            server: self.gauges.numbers(),
        };
        let text = metrics_of(self.alloc, &metrics)?;
        begin_typed(response, StatusCode::OK, METRICS)?;
        Ok(give(response, text)?)
    }
}

impl<'h, 'g, V: HubLooks, G: Gauges> Service for Board<'h, 'g, V, G> {
    ghost answers = { λ old request response new.
        IsAnswered old.access old.run request response × (new ≡ old) };

    fn call(
        &mut self,
        request: &Request<Bytes>,
        response: &mut Response,
    ) -> Result<(), AllocError> {
        match admit(&self.access, request) {
            Ok(resource) => match self.show(request, resource, response) {
                Ok(()) => Ok(()),
                Err(LookFault::Memory) => Err(AllocError),
                Err(LookFault::Ended) => {
                    response.clear();
                    begin(response, StatusCode::SERVICE_UNAVAILABLE, "no-store")
                }
            },
            Err(refusal) => refuse(response, refusal),
        }
    }
}

// Whether the request has this tag.
fn has_tag(request: &Request<Bytes>, tag: &[u8]) -> bool
    ensures { IsTrue result → value_of request.now (codes "if-none-match") ≡ Some tag.now }
{
    match request.headers().get(header::IF_NONE_MATCH) {
        Some(known) => known.as_bytes() == tag,
        None => false,
    }
}

// Shows the page, under the policy that lets it run its own script and nothing else.
fn show_page(response: &mut Response) -> Result<(), Memory>
    requires { IsBlank response.old }
    ensures { OnOk result (IsResponse 200 page_fields (HEAD.now ++ TAIL.now) response.new) }
{
    begin_page(response)?;
    Ok(give_page(response, HEAD, TAIL)?)
}

// Gives an answer that has none yet its body, in two parts.
fn give_page(
    response: &mut Response,
    head: &'static str,
    tail: &'static str,
) -> Result<(), AllocError>
    requires { response.old.body.items ≡ [] }
    ensures body { OnOk result (response.new.body.items ≡ head.now ++ tail.now) }
    ensures fields { fields_of response.new ≡ fields_of response.old }
    ensures status { response.new.status ≡ response.old.status }
{
    response.body.push(Bytes::from_static(head.as_bytes()))?;
    response.body.push(Bytes::from_static(tail.as_bytes()))
}

// Begins the answer that has the page.
fn begin_page(response: &mut Response) -> Result<(), AllocError>
    requires { IsBlank response.old }
    ensures { OnOk result (IsResponse 200 page_fields [] response.new) }
{
    begin(response, StatusCode::OK, "no-cache")?;
    add(response, header::CONTENT_TYPE, HTML)?;
    add(response, header::CONTENT_SECURITY_POLICY, POLICY)
}

// Shows what a line says of one wagon.
fn show_wagon(response: &mut Response, line: WagonLine) -> Result<(), Memory>
    requires { IsBlank response.old }
    ensures { OnOk result
        (IsResponse (status_for line.is_shown) data_fields line.text.items response.new) }
{
    let WagonLine { text, is_shown } = line;
    let status = if is_shown {
        StatusCode::OK
    } else {
        StatusCode::NOT_FOUND
    };
    begin_typed(response, status, JSON)?;
    give(response, text)
}

// Shows that the board answers.
fn show_health(response: &mut Response) -> Result<(), Memory>
    requires { IsBlank response.old }
    ensures { OnOk result (IsResponse 200
        (typed_fields (codes "no-store") PLAIN.now) (codes "ok\n") response.new) }
{
    begin_typed(response, StatusCode::OK, PLAIN)?;
    Ok(response.body.push(Bytes::from_static(b"ok\n"))?)
}

// Refuses a request.
fn refuse(response: &mut Response, refusal: Refusal) -> Result<(), AllocError>
    requires { IsBlank response.old }
    ensures { OnOk result (SaysRefusal refusal response.new) }
{
    begin(response, refusal.status(), "no-store")?;
    match refusal {
        Refusal::OtherMethod => add(response, header::ALLOW, "GET, HEAD"),
        Refusal::NoKey => add(response, header::WWW_AUTHENTICATE, "Bearer"),
        Refusal::OtherHost | Refusal::OtherOrigin | Refusal::NoSuchPath => Ok(()),
    }
}

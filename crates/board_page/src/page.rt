//! What `board/embed` made of `board/page.html`.

/// The policy under which the page is sent: its style and script by their sums, and nothing from elsewhere.
pub const POLICY: &str =
    "default-src 'none'; style-src 'sha256-uzg/pqd8XQqwjPk9LtW17xu4MgOwHvPq1SQsCgnF9iM='; script-src 'sha256-CIwQR+7TLtWM+br/S4rTPGq3MviUFWZN7lM2i8q+wP0='; img-src data:; connect-src 'self'; base-uri 'none'; form-action 'none'; require-trusted-types-for 'script'; trusted-types 'none'; frame-ancestors 'none'";

/// The page up to where the texts of a finished run are put.
pub static HEAD: &str = r##"<!doctype html>
<html lang="en">
<head>
<meta charset="utf-8">
<meta http-equiv="Content-Security-Policy" content="default-src 'none'; style-src 'sha256-uzg/pqd8XQqwjPk9LtW17xu4MgOwHvPq1SQsCgnF9iM='; script-src 'sha256-CIwQR+7TLtWM+br/S4rTPGq3MviUFWZN7lM2i8q+wP0='; img-src data:; connect-src 'self'; base-uri 'none'; form-action 'none'; require-trusted-types-for 'script'; trusted-types 'none'">
<meta name="viewport" content="width=device-width, initial-scale=1">
<meta name="color-scheme" content="light dark">
<meta name="referrer" content="no-referrer">
<title>Wagons</title>
<link rel="icon" href="data:image/svg+xml,%3Csvg xmlns='http://www.w3.org/2000/svg' viewBox='0 0 16 16'%3E%3Crect width='16' height='16' rx='3' fill='%231a56b0'/%3E%3Cpath d='M2 5h12v5H2z' fill='%23fff'/%3E%3Ccircle cx='5' cy='11' r='2' fill='%23fff' stroke='%231a56b0'/%3E%3Ccircle cx='11' cy='11' r='2' fill='%23fff' stroke='%231a56b0'/%3E%3C/svg%3E">
<style>
:root {
  --ground: #f6f7f9; --sheet: #fff; --ink: #16202c; --quiet: #556170; --line: #d9dee5; --edge: #828d9b; --hover: #eef3fa;
  --blue: #1a56b0; --late: #b3261e; --late-ground: #fdecea; --good: #1b6e3c; --good-ground: #e6f4ea;
  --wait: #8a5300; --wait-ground: #fff3dc; --plain-ground: #e9edf2;
  --leg0: #2a6fdb; --leg1: #0c7c7e; --leg2: #7a4fc9; --leg3: #b05a14;
}
@media (prefers-color-scheme: dark) {
  :root {
    --ground: #10151b; --sheet: #19212a; --ink: #e8edf3; --quiet: #a3afbd; --line: #303b48; --edge: #6f7d8d; --hover: #222d39;
    --blue: #8ab8ff; --late: #ff9d94; --late-ground: #3c1f1f; --good: #86d9a1; --good-ground: #17372a;
    --wait: #ffcf80; --wait-ground: #45330f; --plain-ground: #2a3440;
    --leg0: #2f72dc; --leg1: #0e8082; --leg2: #8057cf; --leg3: #b25c17;
  }
}
* { box-sizing: border-box }
body { margin: 0; background: var(--ground); color: var(--ink); font: 15px/1.45 system-ui, "Liberation Sans", sans-serif }
a { color: var(--blue) }
:focus-visible { outline: 3px solid var(--blue); outline-offset: 2px; border-radius: 4px }
main:focus, h2:focus { outline: none }
.unseen { position: absolute; width: 1px; height: 1px; overflow: hidden; clip-path: inset(50%); white-space: nowrap }
.skip:focus { width: auto; height: auto; clip-path: none; left: 1em; top: 1em; background: var(--sheet); padding: .5em 1em; z-index: 9 }
header { background: var(--sheet); border-bottom: 1px solid var(--line); padding: .7rem 1.25rem 0 }
.bar { display: flex; flex-wrap: wrap; gap: .4rem 1rem; align-items: center }
h1 { font-size: 1.3rem; margin: 0 }
h2 { font-size: 1.1rem; margin: 0 0 .6rem }
.live { color: var(--quiet); font-size: .87rem; margin-left: auto }
.live::before {
  content: ""; display: inline-block; width: .6em; height: .6em; border-radius: 50%; background: var(--good); margin-right: .45em;
}
.live.lost { color: var(--late); font-weight: 600 }
.live.lost::before { background: var(--late) }
.live.still::before { background: var(--quiet) }
nav.views { display: flex; gap: .2rem; margin-top: .6rem; overflow-x: auto }
nav.views a {
  padding: .45rem .85rem; text-decoration: none; color: var(--quiet); border-bottom: 3px solid transparent; white-space: nowrap;
}
nav.views a:focus-visible { outline-offset: -3px }
nav.views a[aria-current] { color: var(--ink); border-color: var(--blue); font-weight: 600 }
.count {
  display: inline-block; min-width: 1.6em; text-align: center; border-radius: 1em; padding: 0 .45em; font-size: .82rem;
  background: var(--plain-ground); color: var(--ink);
}
.count.late { background: var(--late-ground); color: var(--late) }
.count.wait { background: var(--wait-ground); color: var(--wait) }
main { padding: 1rem 1.25rem 3rem; max-width: 1500px; margin: auto }
.tools { display: flex; flex-wrap: wrap; gap: .4rem; align-items: center; margin-bottom: .6rem }
input, button {
  font: inherit; color: inherit; background: var(--sheet); border: 1px solid var(--edge); border-radius: 6px; padding: .35rem .5rem;
  min-height: 2.25rem;
}
input[type=search] { flex: 1 1 20rem; max-width: 32rem }
input::placeholder { color: var(--quiet); opacity: 1 }
button { cursor: pointer }
button[aria-pressed=true] { background: var(--blue); border-color: var(--blue); color: var(--sheet) }
button[aria-pressed=true] .count { background: var(--sheet); color: var(--ink) }
button[aria-disabled=true] { color: var(--quiet); border-color: var(--line); cursor: default }
.sheet { background: var(--sheet); border: 1px solid var(--line); border-radius: 8px; overflow-x: auto }
table { border-collapse: separate; border-spacing: 0; width: 100%; font-variant-numeric: tabular-nums }
th, td {
  text-align: left; padding: .45rem .7rem; border-bottom: 1px solid var(--line); white-space: nowrap; vertical-align: middle;
  font-weight: inherit;
}
tbody:last-child tr:last-child > * { border-bottom: 0 }
thead th { position: sticky; top: 0; background: var(--sheet); font-size: .82rem; color: var(--quiet); font-weight: 600 }
thead th:first-child { border-top-left-radius: 8px }
thead th:last-child { border-top-right-radius: 8px }
thead button { border: 0; padding: 0; min-height: 1.6rem; font-weight: 600; color: inherit; background: none }
thead button:hover { text-decoration: underline }
[aria-sort] button { color: var(--ink) }
[aria-sort=ascending] button::after { content: " ↑" }
[aria-sort=descending] button::after { content: " ↓" }
tbody tr:hover { background: var(--hover) }
.late-row > :first-child { box-shadow: inset 4px 0 var(--late) }
.group th { background: var(--plain-ground); font-weight: 600 }
.group span.stays { display: inline-block; position: sticky; left: .7rem; max-width: 85vw; white-space: normal }
.group .tag { font-weight: 400 }
.group .tag:not(.wait) { background: var(--sheet) }
.number { font-weight: 600; text-decoration: none; white-space: nowrap }
.number:hover { text-decoration: underline }
.tag { display: inline-block; border-radius: 4px; padding: .05rem .5rem; font-size: .87rem; background: var(--plain-ground) }
.tag.late { background: var(--late-ground); color: var(--late); font-weight: 600 }
.tag.good { background: var(--good-ground); color: var(--good) }
.tag.wait { background: var(--wait-ground); color: var(--wait); font-weight: 600 }
.quiet { color: var(--quiet) }
.me { font-weight: 700 }
.none { padding: 1.2rem; color: var(--quiet); text-align: center; margin: 0 }
.legs { letter-spacing: .12em }
.pager { display: flex; flex-wrap: wrap; gap: .35rem; align-items: center; margin: .6rem 0 0 }
.pager .rows { margin: 0 .5rem; color: var(--quiet); font-variant-numeric: tabular-nums }
.card { background: var(--sheet); border: 1px solid var(--line); border-radius: 8px; padding: .9rem 1.1rem; max-width: 31rem }
.facts { display: grid; grid-template-columns: repeat(auto-fill, minmax(13.5rem, 1fr)); gap: .7rem 1.5rem; margin: 0; padding: 1rem 1.1rem }
.facts dt { color: var(--quiet); font-size: .82rem }
.facts dd { margin: 0; font-weight: 600; overflow-wrap: anywhere }
.facts .whole { grid-column: 1 / -1 }
.block { margin-bottom: 1.3rem }
.picture { padding: .9rem 1.1rem .6rem; overflow-x: auto }
.picture svg { display: block }
svg text { fill: var(--ink); font: 12px system-ui, "Liberation Sans", sans-serif }
svg .quiet { fill: var(--quiet) }
svg .strong { font-weight: 700 }
svg .on, svg .over { font-weight: 600; paint-order: stroke; stroke-width: 5; stroke-linejoin: round }
svg .on { fill: #fff }
svg .over { stroke: var(--sheet) }
svg .grid { stroke: var(--line) }
svg .promise { stroke: var(--ink); stroke-width: 2; stroke-dasharray: 5 4 }
svg .expected { stroke: var(--good); stroke-width: 2 }
svg text.good { fill: var(--good); font-weight: 700 }
svg .expected.late { stroke: var(--late) }
svg line.now { stroke: var(--blue); stroke-width: 1.5 }
svg text.now { fill: var(--blue) }
svg text.label { paint-order: stroke; stroke: var(--sheet); stroke-width: 6; stroke-linejoin: round }
svg .overdue { fill: var(--late-ground) }
svg text.late { fill: var(--late); font-weight: 700 }
svg .dot { fill: var(--sheet); stroke: var(--ink); stroke-width: 2 }
svg .dot.bad { stroke: var(--late); fill: var(--late) }
svg .yard { fill: var(--sheet); opacity: .55 }
svg .leg0 { fill: var(--leg0); stroke: var(--leg0) }
svg .leg1 { fill: var(--leg1); stroke: var(--leg1) }
svg .leg2 { fill: var(--leg2); stroke: var(--leg2) }
svg .leg3 { fill: var(--leg3); stroke: var(--leg3) }
svg text[class^=on] { fill: #fff }
svg .planned { fill-opacity: .25 }
svg .latest { fill-opacity: .12; stroke-dasharray: 4 3 }
svg .ahead { fill-opacity: .1; stroke-width: 2; stroke-dasharray: 6 3 }
.key { color: var(--quiet); font-size: .85rem; margin: .4rem 0 0 }
dialog {
  background: var(--sheet); color: var(--ink); border: 1px solid var(--line); border-radius: 8px; padding: 1.2rem 1.4rem; max-width: 26rem;
}
dialog::backdrop { background: rgb(0 0 0 / .45) }
dialog input { width: 100%; margin: .2rem 0 .8rem }
[hidden] { display: none !important }
.sheet.rows.fits { overflow: visible }
@media screen and (max-width: 90rem) { th, td { padding: .45rem .4rem } }
@media screen and (max-width: 62rem) { .wide { display: none } }
@media screen and (max-width: 46rem) {
  .middle { display: none }
  main, header { padding-left: .7rem; padding-right: .7rem }
  th, td { padding: .4rem .35rem }
  table { font-size: .9rem }
  .live { margin-left: 0; flex-basis: 100% }
  nav.views { scrollbar-width: none; gap: 0 }
  nav.views a { padding: .4rem .45rem; font-size: .9rem }
  input[type=search] { flex-basis: 100% }
  .tools { gap: .3rem }
  .tools button { font-size: .87rem; padding: .25rem .45rem; min-height: 2rem }
  .facts { grid-template-columns: repeat(auto-fill, minmax(9rem, 1fr)) }
  .picture { padding-left: .6rem; padding-right: .6rem }
}
@page { size: A4 landscape; margin: 11mm }
@media print {
  :root {
    --ground: #fff; --sheet: #fff; --ink: #000; --quiet: #333; --line: #999; --late: #900; --late-ground: #f3dcda; --good: #000;
    --good-ground: #fff; --wait: #000; --wait-ground: #eee; --plain-ground: #eee; --blue: #000;
  }
  nav.views, .tools, .skip, .screen, .pager button { display: none !important }
  html { font-size: 12px }
  body { font-size: 11.5px }
  #zone { border: 0; padding: 0; min-height: 0 }
  header { border-bottom: 2px solid #000; padding: 0 0 .3rem }
  main { padding: .5rem 0; max-width: none }
  .sheet, .sheet.rows { border: 0; overflow: visible }
  thead { display: table-header-group; break-inside: avoid }
  thead th { position: static; border-bottom: 2px solid #000; border-radius: 0 }
  /* Chromium does not repeat a button on the next sheet. */
  thead button { display: none }
  thead th[data-title]::before { content: attr(data-title) }
  th, td { padding: .25rem .45rem }
  tr, .picture, .facts { break-inside: avoid }
  .picture svg { max-width: 100%; height: auto }
  h2 { break-after: avoid }
  * { -webkit-print-color-adjust: exact; print-color-adjust: exact }
}
</style>
</head>
<body>
<a class="skip unseen" id="skip" href="#content">To the wagons</a>
<header>
  <div class="bar">
    <h1 id="title">Wagons</h1>
    <button id="zone" type="button" aria-pressed="false" title="Change between UTC and the time zone of this computer">Times in UTC</button>
    <button id="forget" type="button" class="screen" hidden>Forget the key</button>
    <span class="live still" id="live">loading</span>
  </div>
  <nav class="views" aria-label="Views" id="views"></nav>
</header>
<main id="content" tabindex="-1"></main>
<div id="said" role="status" aria-live="polite" class="unseen"></div>
<dialog id="key-dialog" aria-labelledby="key-title">
  <form id="key-form">
    <h2 id="key-title">Key of the railway</h2>
    <p id="key-why" class="quiet" role="alert"></p>
    <label for="key">Key</label>
    <input id="key" type="password" autocomplete="off" spellcheck="false" required>
    <button>Show the wagons</button>
    <p class="key">It is kept until this tab is closed, and sent to this server alone.</p>
  </form>
</dialog>
<noscript><p class="none">This page needs JavaScript. The records themselves are at wagons.json beside it.</p></noscript>
"##;

/// The page behind them.
pub static TAIL: &str = r##"
<script>
"use strict";

// The board shows a railway the wagons that it may see, or all wagons of a finished run whose texts are inside this page. It only
// reads: no record is sent from here. Every text goes in as text, never as markup.

const POLL = 1000; // milliseconds from one look to the next: what is answered at interchange is seen within two seconds
const POLL_HIDDEN = 15000; // the same while nobody sees the page
const WAGONS_PER_REST = 20; // a fleet that changed is left alone for a millisecond for so many wagons: 50,000 for 2.5 s
const PATIENCE = 30000; // milliseconds after which a request counts as lost
const ROWS = 100; // rows that are shown at a time
const ROWS_PRINTED = 2000;
const NAMED_ALERTS = 3; // new alerts that are read out by number
const LAST = "9999"; // behind every moment
const NONE = [];

const STAGES = {
  planned: "Planned", released: "Released", running: "Running", in_yard: "In a yard", offered: "Offered", arrived: "Arrived",
  delivered: "Delivered",
};
const STAGE_NAMES = Object.keys(STAGES);
const EVENTS = {
  plan: "Plan", release: "Release notice", depart: "Departure notice", yard_in: "Yard arrival", yard_out: "Yard departure",
  exception: "Exception", eti_ask: "New estimate asked for", eti: "New estimate", leg_time: "Time of a leg",
  offer: "Interchange notice", withdraw: "Offer withdrawn", answer: "Answer at interchange", arrival: "Arrival notice",
  delivery: "Delivery notice", reroute: "Reroute",
};
const STATUSES = {
  loading: "loading", fleet_control: "fleet control", loaded_on_journey: "loaded, on journey", empty_on_journey: "empty, on journey",
  unloading: "unloading",
};

const byId = (id) => document.getElementById(id);
const inside = Object.fromEntries(["wagons", "legs", "records"].map((name) => [name, byId(name)]));
const isFile = inside.wagons !== null || inside.records !== null;
// The railway that the page speaks for: a server's page has it in its path, a file may show all wagons.
const owner = isFile
  ? ((inside.wagons ?? inside.records).dataset.railway ?? "")
  : (/\/([A-Z0-9]{4})\/$/.exec(location.pathname)?.[1] ?? "");

// What was read. The version counts the lists that came, and `read` the records that came with their events. A detail is a wagon's
// record with its events, its legs, and the version of the list that it was read behind; a refusal has why, and the same.
const known = {
  wagons: [], legs: new Map(), details: new Map(), refusals: new Map(), tags: {}, version: 0, drawn: 0, read: 0,
  counts: {}, readAt: null, lostSince: null, lateSince: new Map(), announced: null,
};
const choice = { text: "", stages: new Set(), late: false, mine: false, toAnswer: false, local: false };

// ---- Elements

function fill(made, attributes, inner) {
  for (const [name, value] of Object.entries(attributes)) {
    if (value === null || value === undefined || value === false) continue;
    if (name.startsWith("on")) made.addEventListener(name.slice(2), value);
    else made.setAttribute(name, value === true ? "" : value);
  }
  made.append(...inner.flat().filter((part) => part !== null && part !== undefined && part !== false));
  return made;
}

const element = (name, attributes = {}, ...inner) => fill(document.createElement(name), attributes, inner);
const shape = (name, attributes = {}, ...inner) =>
  fill(document.createElementNS("http://www.w3.org/2000/svg", name), attributes, inner);

function setText(holder, text) {
  if (holder.textContent !== text) holder.textContent = text;
}

// ---- Times: minutes since 1970, and moments as records write them

const minutesOf = (moment) => (moment ? Date.parse(moment.replace("Z", ":00Z")) / 60000 : null);
const two = (number) => String(number).padStart(2, "0");

function calendar(minutes) {
  const date = new Date(minutes * 60000);
  return choice.local
    ? [date.getFullYear(), date.getMonth() + 1, date.getDate(), date.getHours(), date.getMinutes()]
    : [date.getUTCFullYear(), date.getUTCMonth() + 1, date.getUTCDate(), date.getUTCHours(), date.getUTCMinutes()];
}

function clock(minutes) {
  const [, , , hour, minute] = calendar(minutes);
  return two(hour) + ":" + two(minute);
}

// The day, with its year where that is not this year.
function day(minutes) {
  const [year, month, date] = calendar(minutes);
  const [thisYear] = calendar(Date.now() / 60000);
  return (year === thisYear ? "" : year + "-") + two(month) + "-" + two(date);
}

const whenAt = (minutes) => day(minutes) + " " + clock(minutes);
const when = (moment) => (moment ? whenAt(minutesOf(moment)) : "–");
const time = (moment) => (moment ? element("time", { datetime: moment, title: moment }, when(moment)) : "–");

function span(minutes) {
  const hours = Math.floor(minutes / 60), days = Math.floor(hours / 24);
  if (days) return days + " d " + (hours % 24) + " h";
  return hours ? hours + " h " + two(minutes % 60) : minutes + " min";
}

function zone() {
  return choice.local ? "local time (" + Intl.DateTimeFormat().resolvedOptions().timeZone + ")" : "UTC";
}

// ---- A wagon

// The marked form of a vehicle number.
const mark = (number) => `${number.slice(0, 2)} ${number.slice(2, 4)} ${number.slice(4, 8)} ${number.slice(8, 11)}-${number.slice(11)}`;

class Wagon {
  constructor(record, legs) {
    this.record = record;
    this.legs = legs ?? null;
    this.lateBy = record.late ? minutesOf(record.eta) - minutesOf(record.commit) : 0;
  }

  get number() { return this.record.wagon }
  get marked() { return mark(this.record.wagon) }
  get isOver() { return this.record.stage === "arrived" || this.record.stage === "delivered" }
  get isOffered() { return this.record.stage === "offered" }
  get isAlert() { return this.record.late && this.record.stage !== "delivered" }
  get leg() { return this.legs?.[this.record.leg] ?? null }
  get receiver() { return this.legs?.[this.record.leg + 1]?.ru ?? null }
  get units() { return this.record.units ?? NONE }
  get stage() { return STAGES[this.record.stage] ?? this.record.stage }

  get legCount() {
    const last = this.record.estimates.at(-1);
    return this.legs ? this.legs.length : last ? last.leg + 1 : null;
  }

  get where() {
    if (this.record.place) return this.record.place;
    return this.leg ? this.leg.origin + " → " + this.leg.target : "on the way";
  }

  // Whether it stands where its next railway takes it over, and no offer is open.
  get waitsForOffer() {
    return this.record.stage === "in_yard" && this.receiver !== null && this.record.place === this.leg.target;
  }

  // How late, in two parts: a small screen leaves the second one out.
  get lateness() {
    const { late, eta, commit } = this.record;
    if (late) return ["+" + span(this.lateBy), ""];
    if (!eta) return ["no estimate", ""];
    const early = minutesOf(commit) - minutesOf(eta);
    return early ? [span(early), " in hand"] : ["in time", ""];
  }

  // Whether a word of a search is in what the list shows. All these texts are in capitals.
  has(word) {
    return this.hasBesideUnits(word) || this.units.some((unit) => unit.includes(word.text));
  }

  hasBesideUnits({ text, digits }) {
    const { wagon, lead, responsible, consignment } = this.record;
    return wagon.includes(digits) || consignment.includes(text) || lead.includes(text) || Boolean(responsible?.includes(text)) ||
      this.where.includes(text);
  }
}

// The words of a search. A number of a wagon may have the hyphen of its marked form.
function wordsOf(search) {
  const texts = search.toUpperCase().split(/\s+/).filter(Boolean);
  return texts.map((text) => ({ text, digits: /^[\d-]+$/.test(text) ? text.replaceAll("-", "") : text }));
}

const compare = (a, b) => (a < b ? -1 : a > b ? 1 : 0);

// The late ones first, the latest of them before all; then by when they are expected.
function urgency(a, b) {
  return b.lateBy - a.lateBy || compare(a.record.eta ?? LAST, b.record.eta ?? LAST) || compare(a.number, b.number);
}

const wagonLink = ({ number, marked }, unit = "") =>
  element("a", { class: "number", href: "#wagon/" + number, id: "to-" + number + unit }, marked);
const railway = (code) => (code ? element("span", code === owner ? { class: "me", title: "this railway" } : {}, code) : "–");

function latenessTag(wagon) {
  const kind = wagon.record.late ? "tag late" : wagon.record.eta ? "tag good" : "quiet";
  const [text, more] = wagon.lateness;
  return element("span", { class: kind }, text, more ? element("span", { class: "middle" }, more) : null);
}

function stageTag(wagon) {
  return element("span", { class: wagon.isOffered ? "tag wait" : "tag" }, wagon.stage);
}

const legText = (wagon) => wagon.record.leg + 1 + (wagon.legCount ? " of " + wagon.legCount : "");

function legDots(wagon) {
  const count = wagon.legCount;
  if (count === null) return "–";
  const done = wagon.isOver ? count : wagon.record.leg;
  const dots = Array.from({ length: count }, (_, leg) => (leg < done ? "●" : leg === wagon.record.leg ? "◐" : "○")).join("");
  return element("span", { class: "legs", role: "img", title: "leg " + legText(wagon), "aria-label": "leg " + legText(wagon) }, dots);
}

function unitCell(wagon) {
  if (!wagon.units.length) return element("span", { class: "quiet" }, wagon.record.load);
  const more = wagon.units.length - 1;
  return element("span", { title: "loaded: " + wagon.units.join(", ") }, wagon.units[0] + (more ? " +" + more : ""));
}

// ---- Columns: the text of a cell, and where they differ from it what it is sorted by, how it is shown, and what is copied of it. Of
// lateness that is the minutes: a spreadsheet would take "+2 h 07" for a formula.

const column = (title, text, more = {}) => ({ title, text, sorted: text, cell: text, copied: text, copiedTitle: title, ...more });
const WIDE = { size: "wide" }, MIDDLE = { size: "middle" };

const COLUMNS = {
  wagon: column("Wagon", (wagon) => wagon.marked, { sorted: (wagon) => wagon.number, cell: (wagon) => wagonLink(wagon), isHead: true }),
  late: column("Late by", (wagon) => wagon.lateness.join(""), {
    sorted: (wagon) => -wagon.lateBy, cell: latenessTag, copied: (wagon) => String(wagon.lateBy), copiedTitle: "Minutes late",
  }),
  expected: column("Expected", (wagon) => when(wagon.record.eta), {
    sorted: (wagon) => wagon.record.eta ?? LAST, cell: (wagon) => time(wagon.record.eta),
  }),
  promised: column("Promised", (wagon) => when(wagon.record.commit), {
    sorted: (wagon) => wagon.record.commit, cell: (wagon) => time(wagon.record.commit), ...WIDE,
  }),
  stage: column("Stage", (wagon) => wagon.stage, {
    sorted: (wagon) => STAGE_NAMES.indexOf(wagon.record.stage), cell: stageTag,
  }),
  where: column("Where", (wagon) => wagon.where),
  responsible: column("Responsible", (wagon) => wagon.record.responsible ?? "–", {
    cell: (wagon) => railway(wagon.record.responsible), ...MIDDLE,
  }),
  legs: column("Legs", legText, { cell: legDots, ...MIDDLE }),
  lead: column("Lead", (wagon) => wagon.record.lead, { cell: (wagon) => railway(wagon.record.lead), ...WIDE }),
  consignment: column("Consignment", (wagon) => wagon.record.consignment, WIDE),
  units: column("Unit", (wagon) => wagon.units.join(", ") || wagon.record.load, { cell: unitCell, ...WIDE }),
  offer: column("Offer", (wagon) => offerOf(wagon)?.no ?? "…"),
  offeredAt: column("Since", (wagon) => when(offerOf(wagon)?.at), { cell: (wagon) => time(offerOf(wagon)?.at) }),
  seenLate: column("Late since", (wagon) => lateSince(wagon), WIDE),
};
const columns = (names) => names.split(" ").map((name) => COLUMNS[name]);
const LIST_COLUMNS = columns("wagon late expected promised stage where responsible legs lead consignment units");
const OFFER_COLUMNS = columns("wagon offer offeredAt late expected promised lead consignment units");
const ALERT_COLUMNS = columns(`wagon late ${isFile ? "" : "seenLate "}expected promised stage where responsible lead consignment`);

// The same column of a row that has its wagon beside other things.
function ofWagon(name) {
  const { text, sorted, cell, copied, ...more } = COLUMNS[name], of = (take) => (row) => take(row.wagon);
  return { ...more, text: of(text), sorted: of(sorted), cell: of(cell), copied: of(copied), isHead: false };
}

const UNIT_COLUMNS = [
  column("Unit", (row) => row.unit, { isHead: true }),
  { ...ofWagon("wagon"), cell: (row) => wagonLink(row.wagon, row.unit) },
  ...["where", "stage", "expected", "late", "promised", "responsible", "consignment"].map(ofWagon),
];

// ---- A table with pages of rows

class RowTable {
  constructor(caption, columns, { none, group } = {}) {
    Object.assign(this, { columns, none, group, rows: [], order: null, first: 0, state: null, drawn: [] });
    this.caption = element("caption", { class: "unseen" }, caption);
    this.heads = columns.map((each) => this.head(each));
    this.body = element("tbody");
    this.empty = element("p", { class: "none" });
    const head = element("thead", {}, element("tr", {}, this.heads));
    this.table = element("table", { onkeydown: (event) => this.key(event) }, this.caption, head, this.body);
    this.counted = element("span", { class: "rows", "aria-live": "polite" });
    this.pager = this.makePager();
    this.sheet = element("div", { class: "sheet rows" }, this.table, this.empty);
    this.root = element("div", { class: "block" }, this.sheet, this.pager);
    tables.add(this);
  }

  head(each) {
    const sort = element("button", { type: "button", onclick: () => this.sortBy(each) }, each.title);
    return element("th", { scope: "col", class: each.size, "data-title": each.title, "data-copied": each.copiedTitle }, sort);
  }

  makePager() {
    const button = (text, title, to) =>
      element("button", { type: "button", title, "aria-label": title, onclick: () => this.turn(to()) }, text);
    this.back = [button("«", "First rows", () => 0), button("‹", "Rows before", () => this.first - ROWS)];
    this.forth = [button("›", "Rows after", () => this.first + ROWS), button("»", "Last rows", () => this.lastPage)];
    const copy = () => copyText(this.asText(), this.copy);
    this.copy = element("button", { type: "button", title: "Copy all these rows, with tabs between the cells", onclick: copy }, "Copy");
    return element("nav", { class: "pager", "aria-label": "Pages of rows" }, this.back, this.counted, this.forth, this.copy);
  }

  get lastPage() { return Math.max(0, Math.floor((this.rows.length - 1) / ROWS) * ROWS) }
  get shown() { return this.rows.slice(this.first, this.first + ROWS) }

  show(rows) {
    this.given = rows;
    this.rows = this.sorted(rows);
    this.first = Math.min(this.first, this.lastPage);
    this.draw();
  }

  sortBy(each) {
    const isSame = this.order?.by === each;
    this.order = isSame && this.order.falls ? null : { by: each, falls: isSame };
    this.first = 0;
    this.show(this.given);
  }

  // The rows in the order of a column; those that are alike stay as they came, late ones first.
  sorted(rows) {
    if (this.order === null) return rows;
    const { by, falls } = this.order;
    const keyed = rows.map((row) => [by.sorted(row), row]);
    keyed.sort(([a], [b]) => (falls ? compare(b, a) : compare(a, b)));
    return keyed.map(([, row]) => row);
  }

  turn(first) {
    this.first = Math.max(0, Math.min(first, this.lastPage));
    this.draw();
    this.body.querySelector("a")?.focus({ preventScroll: true });
    this.root.scrollIntoView({ block: "nearest" });
  }

  draw(first = this.first, most = ROWS) {
    const end = Math.min(first + most, this.rows.length);
    this.drawRows(this.rows.slice(first, end));
    this.table.hidden = !this.rows.length;
    this.empty.hidden = Boolean(this.rows.length);
    setText(this.empty, this.none?.() ?? "None.");
    const count = (number) => number.toLocaleString("en");
    setText(this.counted, this.rows.length ? "rows " + count(first + 1) + " to " + count(end) + " of " + count(this.rows.length) : "");
    this.pager.hidden = !this.rows.length;
    for (const button of [...this.back, ...this.forth]) button.hidden = this.rows.length <= ROWS;
    for (const button of this.back) button.setAttribute("aria-disabled", String(this.first === 0));
    for (const button of this.forth) button.setAttribute("aria-disabled", String(this.first === this.lastPage));
    this.heads.forEach((head, i) => this.sortMark(head, this.columns[i]));
    // Its heads stay in sight where the table is no wider than its sheet. Else it is moved sideways within the sheet.
    this.sheet.classList.toggle("fits", this.table.offsetWidth <= this.sheet.clientWidth);
  }

  // Rows that are there as they would be drawn are left alone: a letter of a search often changes none.
  drawRows(rows) {
    const state = [choice.local, this.order !== null, known.read].join();
    if (state === this.state && rows.length === this.drawn.length && rows.every((row, i) => row === this.drawn[i])) return;
    Object.assign(this, { state, drawn: rows });
    this.body.replaceChildren(...this.bodyRows(rows));
  }

  sortMark(head, each) {
    if (this.order?.by === each) head.setAttribute("aria-sort", this.order.falls ? "descending" : "ascending");
    else head.removeAttribute("aria-sort");
  }

  bodyRows(rows) {
    let group = null;
    return rows.flatMap((row) => {
      const found = this.group?.(row);
      const isNew = found && found.key !== group && !this.order;
      group = found?.key;
      return isNew ? [this.groupRow(found), this.row(row)] : [this.row(row)];
    });
  }

  groupRow({ text, tag, kind }) {
    const title = element("span", { class: "stays" }, text, " ", element("span", { class: kind }, tag));
    return element("tr", { class: "group" }, element("th", { scope: "rowgroup", colspan: this.columns.length }, title));
  }

  row(row) {
    const late = (row.wagon ?? row).record.late;
    const copied = (each) => (each.copiedTitle === each.title ? null : each.copied(row));
    const attributes = (each) => ({ scope: each.isHead ? "row" : null, class: each.size, "data-copied": copied(each) });
    const cell = (each) => element(each.isHead ? "th" : "td", attributes(each), each.cell(row));
    return element("tr", { class: late ? "late-row" : null }, this.columns.map(cell));
  }

  asText() {
    const rows = this.rows.map((row) => this.columns.map((each) => each.copied(row)));
    const lines = [this.columns.map((each) => each.copiedTitle), ...rows];
    return lines.map((cells) => cells.join("\t")).join("\n") + "\n";
  }

  // From a link of a row: arrows to the rows beside it, Page Up and Page Down to the pages beside this one.
  key(event) {
    if (!event.target.matches("tbody a")) return;
    const links = [...this.body.querySelectorAll("a")], at = links.indexOf(event.target);
    const to = { ArrowDown: links[at + 1], ArrowUp: links[at - 1], Home: links[0], End: links.at(-1) }[event.key];
    const page = { PageDown: this.first + ROWS, PageUp: this.first - ROWS }[event.key];
    if (to) to.focus();
    else if (page !== undefined && page >= 0 && page < this.rows.length) this.turn(page);
    else return;
    event.preventDefault();
  }
}

const tables = new Set();

// ---- Copying: rows with tabs between their cells

function copyText(text, button) {
  const done = () => { button.textContent = "Copied"; setTimeout(() => { button.textContent = "Copy" }, 1500) };
  if (navigator.clipboard) navigator.clipboard.writeText(text).then(done, () => { button.textContent = "Not allowed" });
  else button.textContent = "Select the rows and copy them";
}

// What is selected of a table, if it is more than a part of one cell.
function copySelected(event) {
  const selection = getSelection();
  if (selection.isCollapsed) return;
  const rows = [...document.querySelectorAll("main tr")].filter((row) => selection.containsNode(row, true));
  const cells = rows.map((row) => [...row.cells].filter((cell) => cell.checkVisibility() && selection.containsNode(cell, true)));
  if (cells.flat().length < 2) return;
  const text = (cell) => cell.dataset.copied ?? cell.textContent.trim();
  event.clipboardData.setData("text/plain", cells.map((row) => row.map(text).join("\t")).join("\n") + "\n");
  event.preventDefault();
}

// ---- Fields of a search, and buttons that are pressed or not

function searchField(id, placeholder, oninput) {
  return element("input", { type: "search", id, placeholder, "aria-label": "Search", autocomplete: "off", oninput });
}

class Toggle {
  constructor(text, kind, isPressed, press) {
    Object.assign(this, { isPressed });
    this.count = element("span", { class: "count " + kind });
    this.root = element("button", { type: "button", "aria-pressed": "false", onclick: () => { press(); draw() } }, text, " ", this.count);
  }

  refresh(count) {
    setText(this.count, String(count));
    this.root.setAttribute("aria-pressed", String(this.isPressed()));
    return this.root;
  }
}

// ---- The list of wagons

class ListView {
  constructor() {
    const none = () => (known.wagons.length ? "No wagon fits." : known.readAt ? "There is no wagon to show." : stateText());
    this.table = new RowTable("Wagons, those that are late first", LIST_COLUMNS, { none });
    const search = () => { choice.text = this.search.value; this.table.first = 0; this.filter() };
    this.search = searchField("search", "wagon, unit, consignment, place, railway", search);
    const toggle = (text, kind, isPressed, change) => new Toggle(text, kind, isPressed, () => this.choose(change));
    this.late = toggle("Late", "late", () => choice.late, () => { choice.late = !choice.late });
    this.mine = toggle("Responsible", "", () => choice.mine, () => { choice.mine = !choice.mine });
    this.stages = STAGE_NAMES.map((name) => toggle(STAGES[name], "", () => choice.stages.has(name), () => toggleStage(name)));
    this.hidden = element("p", { class: "key" });
    const filters = element("div", { class: "tools", role: "search" }, this.search, this.late.root, this.mine.root);
    const stages = element("div", { class: "tools", role: "group", "aria-label": "Stages" }, this.stages.map((each) => each.root));
    const title = element("h2", { class: "unseen", tabindex: -1 }, "Wagons");
    this.root = element("div", {}, title, filters, stages, this.table.root, this.hidden);
  }

  choose(change) {
    change();
    this.table.first = 0;
  }

  update() {
    const { late, mine, stages } = known.counts;
    this.late.refresh(late);
    this.mine.refresh(mine).hidden = !owner;
    this.stages.forEach((each, i) => { each.refresh(stages[STAGE_NAMES[i]]).hidden = !stages[STAGE_NAMES[i]] });
    this.filter();
  }

  filter() {
    const words = wordsOf(choice.text);
    this.table.show(known.wagons.filter((wagon) => isChosen(wagon, words)));
    const isHidden = !choice.stages.size && !words.length && known.counts.stages.delivered;
    setText(this.hidden, isHidden ? "Delivered wagons are not in the list: choose Delivered, or search." : "");
  }
}

function toggleStage(name) {
  if (!choice.stages.delete(name)) choice.stages.add(name);
}

function isChosen(wagon, words) {
  const { late, responsible, stage } = wagon.record;
  if (choice.late && !late) return false;
  if (choice.mine && responsible !== owner) return false;
  if (choice.stages.size ? !choice.stages.has(stage) : !words.length && stage === "delivered") return false;
  return words.every((word) => wagon.has(word));
}

// ---- Offers at interchange

// The newest offer of a wagon's record, where the record was read with its events.
function offerOf(wagon) {
  return known.details.get(wagon.number)?.record.events.findLast((event) => event.kind === "offer");
}

const isToAnswer = (wagon) => wagon.receiver === owner && owner !== "";

function offerGroup(wagon) {
  const { responsible, place } = wagon.record;
  const text = responsible + " → " + (wagon.receiver ?? "next railway") + " at " + place;
  const waits = wagon.receiver ? "waits for " + wagon.receiver : "waits for an answer";
  return { key: text, text, tag: isToAnswer(wagon) ? "to be answered by " + owner : waits, kind: isToAnswer(wagon) ? "tag wait" : "tag" };
}

function offerOrder(a, b) {
  return isToAnswer(b) - isToAnswer(a) || compare(offerGroup(a).key, offerGroup(b).key) || urgency(a, b);
}

class InterchangeView {
  constructor() {
    const press = () => { choice.toAnswer = !choice.toAnswer };
    this.toAnswer = new Toggle("To be answered by " + owner, "wait", () => choice.toAnswer, press);
    const none = () => "No offer is open.", first = "Wagons of open offers, by interchange, those that this railway has to answer first";
    this.offers = new RowTable(first, OFFER_COLUMNS, { none, group: offerGroup });
    const group = (wagon) => ({ key: this.yardText(wagon), text: this.yardText(wagon), tag: "", kind: "" });
    this.yards = new RowTable("Wagons in the yard of their interchange that are in no open offer", LIST_COLUMNS, { group });
    const tools = owner ? element("div", { class: "tools" }, this.toAnswer.root) : null;
    const offers = element("h2", { tabindex: -1 }, "Open offers");
    const yards = element("h2", {}, "In the yard of their interchange, in no open offer");
    this.root = element("div", {}, offers, tools, this.offers.root, yards, this.yards.root);
  }

  yardText(wagon) {
    return wagon.record.responsible + " → " + wagon.receiver + " at " + wagon.record.place;
  }

  update() {
    const open = known.wagons.filter((wagon) => wagon.isOffered).sort(offerOrder);
    this.toAnswer.refresh(open.filter(isToAnswer).length);
    this.offers.show(choice.toAnswer ? open.filter(isToAnswer) : open);
    const order = (a, b) => compare(this.yardText(a), this.yardText(b)) || urgency(a, b);
    this.yards.show(known.wagons.filter((wagon) => wagon.waitsForOffer).sort(order));
    readOffers(this.offers);
  }
}

// Reads the records of the offers that are shown, six at a time: their numbers and moments are in their events alone.
async function readOffers(table) {
  const wanted = table.shown.filter((wagon) => !isFresh(wagon.number));
  if (isFile || table.isReading || !wanted.length) return;
  table.isReading = true;
  try {
    for (let i = 0; i < wanted.length; i += 6) await Promise.all(wanted.slice(i, i + 6).map((wagon) => readRecord(wagon.number)));
  } catch (error) {
    lose(error);
  }
  table.isReading = false;
  if (content.contains(table.root) && !known.lostSince) drawNews();
}

// ---- Alerts

function lateSince(wagon) {
  const since = known.lateSince.get(wagon.number);
  return since ? "seen " + secondsOf(since) : "earlier";
}

class AlertView {
  constructor() {
    this.late = new RowTable("Wagons that are late and not delivered", ALERT_COLUMNS, { none: () => "No wagon on its way is late." });
    this.over = new RowTable("Wagons that were delivered late", LIST_COLUMNS);
    const titles = [element("h2", { tabindex: -1 }, "Late, not delivered yet"), element("h2", {}, "Delivered late")];
    this.root = element("div", {}, titles[0], this.late.root, titles[1], this.over.root);
  }

  update() {
    this.late.show(known.wagons.filter((wagon) => wagon.isAlert));
    this.over.show(known.wagons.filter((wagon) => wagon.record.late && !wagon.isAlert));
  }
}

// ---- Intermodal units, and the wagons that they are on

class UnitView {
  constructor() {
    const none = () => (known.counts.units ? "No unit fits." : "No wagon has an intermodal unit.");
    this.table = new RowTable("Intermodal units with their wagons, those that are not delivered first", UNIT_COLUMNS, { none });
    this.search = searchField("search-units", "unit, wagon, consignment, place, railway", () => { this.table.first = 0; this.update() });
    const title = element("h2", { tabindex: -1 }, "Intermodal units and their wagons");
    this.root = element("div", {}, title, element("div", { class: "tools", role: "search" }, this.search), this.table.root);
  }

  update() {
    const words = wordsOf(this.search.value), rows = known.wagons.flatMap((wagon) => wagon.units.map((unit) => ({ unit, wagon })));
    const fits = ({ unit, wagon }, word) => unit.includes(word.text) || wagon.hasBesideUnits(word);
    const isChosen = (row) => words.every((word) => fits(row, word));
    const isDelivered = (row) => row.wagon.record.stage === "delivered";
    this.table.show(rows.filter(isChosen).sort((a, b) => isDelivered(a) - isDelivered(b) || compare(a.unit, b.unit)));
  }
}

// ---- The journey of a wagon: what was planned, reported and expected, as runs of legs from one moment to another

// Planned: from the release, with the minutes of the legs. Before it: the latest moments that keep the promise.
function plannedJourney(wagon) {
  if (!wagon.legs) return { runs: [], isReleased: false };
  const release = wagon.record.events.find((event) => event.kind === "release");
  const all = wagon.legs.reduce((sum, leg) => sum + leg.minutes, 0);
  let from = release ? minutesOf(release.at) : minutesOf(wagon.record.commit) - all;
  const run = ({ minutes }, leg) => {
    const begun = from;
    from += minutes;
    return { leg, from: begun, to: from };
  };
  return { runs: wagon.legs.map(run), isReleased: Boolean(release) };
}

// Reported: a leg begins with the departure or the receiving answer, and ends with the next receiving answer or the arrival.
function reportedJourney(record) {
  const found = { runs: [], stays: [], reports: [], estimates: [], begun: null, last: null };
  let leg = 0, yard = null;
  const close = (at) => { if (found.begun !== null) found.runs.push({ leg, from: found.begun, to: at }) };
  const leave = (at) => { if (yard) found.stays.push({ ...yard, to: at }); yard = null };
  for (const event of record.events) {
    const at = minutesOf(event.at);
    if (at === null) continue;
    // The moment of an estimate is not when it was reported: it is when the wagon is expected at the end of the leg.
    if (event.kind === "eti") { found.estimates.push({ at, event }); continue }
    found.reports.push({ at, event });
    found.last = Math.max(found.last ?? at, at);
    if (event.kind === "depart") found.begun = at;
    if (event.kind === "yard_in") yard = { from: at, place: event.place };
    if (event.kind === "yard_out") leave(at);
    if (event.received) { close(at); found.begun = at; leg += 1 }
    if (event.kind === "arrival") { close(at); leave(at); found.begun = null }
  }
  if (found.begun !== null) close(found.last);
  leave(found.last);
  return found;
}

// Expected: from the last report to the estimate of each leg.
function expectedJourney(wagon, last) {
  if (wagon.isOver) return [];
  let from = last;
  return wagon.record.estimates.map(({ leg, at }) => {
    const to = minutesOf(at), run = { leg, from: from ?? to, to };
    from = to;
    return run;
  });
}

function eventText(event) {
  switch (event.kind) {
    case "exception": return "delay of " + span(event.delay);
    case "leg_time": return "leg " + (event.leg + 1) + " takes " + span(event.minutes);
    case "reroute": return "legs from leg " + (event.leg + 1) + " on";
    case "eti": return "expected at the end of the leg at " + when(event.at);
    default: return event.place ?? "";
  }
}

function eventName(event) {
  if (event.kind === "answer") return event.received ? "Received at interchange" : "Refused at interchange";
  return EVENTS[event.kind] ?? event.kind;
}

const isNumber = (text) => /^\d{12}$/.test(text);
const isBad = (event) => event.kind === "exception" || event.received === false;
const eventNote = ({ event }) => when(event.at) + " " + eventName(event) + " (" + event.by + ") " + eventText(event);

const GAP = 10; // between two labels of a line
const ruler = document.createElement("canvas").getContext("2d");

// How wide a text of the picture is.
function widthOf(text, kind) {
  ruler.font = (/strong|late|good|on|over/.test(kind) ? "bold " : "") + "12px " + getComputedStyle(document.body).fontFamily;
  return ruler.measureText(text).width;
}

class Picture {
  constructor(wagon, width) {
    Object.assign(this, { wagon, width, left: 78, right: 26, top: 62 });
    this.lanes = { Planned: this.top, Reported: this.top + 38, Events: this.top + 76, Expected: this.top + 118 };
    this.bottom = this.top + 152;
    this.height = this.bottom + 54;
    this.names = [];
    this.planned = plannedJourney(wagon);
    this.reported = reportedJourney(wagon.record);
    this.expected = expectedJourney(wagon, this.reported.last);
    this.commit = minutesOf(wagon.record.commit);
    this.eta = minutesOf(wagon.record.eta);
    this.measure();
  }

  measure() {
    const runs = [...this.planned.runs, ...this.reported.runs, ...this.expected].flatMap(({ from, to }) => [from, to]);
    const points = [...this.reported.reports, ...this.reported.estimates].map(({ at }) => at);
    const all = [this.commit, this.eta ?? this.commit, ...runs, ...points];
    const low = all.reduce((a, b) => Math.min(a, b)), high = all.reduce((a, b) => Math.max(a, b));
    const room = Math.max(20, (high - low) * 0.03);
    this.low = low - room;
    this.high = high + room;
  }

  x(minutes) {
    return this.left + ((minutes - this.low) / (this.high - this.low)) * (this.width - this.left - this.right);
  }

  draw() {
    const { width, height } = this, named = { role: "img", "aria-labelledby": "picture-title picture-text" };
    const title = shape("title", { id: "picture-title" }, "The journey of wagon " + this.wagon.marked);
    const text = shape("desc", { id: "picture-text" }, this.inWords());
    this.svg = shape("svg", { width, height, viewBox: `0 0 ${width} ${height}`, ...named }, title, text);
    this.drawGrid();
    this.drawOverdue();
    for (const [name, y] of Object.entries(this.lanes)) this.write(name, 0, y + 17, "strong", "start");
    this.drawRuns(this.planned.runs, "Planned", this.planned.isReleased ? "planned" : "planned latest");
    this.drawRuns(this.reported.runs, "Reported", "");
    this.drawRuns(this.expected, "Expected", "ahead");
    this.drawStays();
    this.drawReports();
    this.drawEstimates();
    this.drawPlaces();
    this.drawMoments();
    // Names and labels over the lines, so that no line crosses one.
    for (const name of this.names) this.write(...name);
    return this.svg;
  }

  inWords() {
    const { eta, commit, late } = this.wagon.record;
    const expected = eta ? ", " + this.etaName() + " " + when(eta) : "", lateness = late ? ", late by " + span(this.wagon.lateBy) : "";
    return `Promised ${when(commit)}${expected}${lateness}. Times in ${zone()}. The events are in the table below.`;
  }

  etaName() {
    return this.wagon.isOver ? this.wagon.record.stage : "expected";
  }

  write(text, x, y, kind, anchor = "middle") {
    this.svg.append(shape("text", { class: kind, x, y, "text-anchor": anchor, "pointer-events": "none" }, text));
  }

  // A line of a moment through the lanes, and its label in the middle over it, moved in from the edges.
  moment(at, text, y, kind, line) {
    const half = widthOf(text, kind) / 2;
    this.line(at, line, y + 4);
    this.names.push([text, Math.max(half, Math.min(this.x(at), this.width - half)), y, kind + " label"]);
  }

  // Those of the labels that fit beside each other on a line, the first ones of the list before the others.
  labelRow(labels, y, kind) {
    const taken = [];
    for (const { text, x } of labels) {
      const half = widthOf(text, kind) / 2, middle = Math.max(half, Math.min(x, this.width - half));
      if (taken.some(([from, to]) => middle - half < to + GAP && middle + half > from - GAP)) continue;
      taken.push([middle - half, middle + half]);
      this.write(text, middle, y, kind);
    }
  }

  line(at, kind, from) {
    this.svg.append(shape("line", { class: kind, x1: this.x(at), x2: this.x(at), y1: from, y2: this.bottom }));
  }

  // The moments of the grid, and whether they are whole days.
  ticks() {
    const steps = [15, 30, 60, 120, 180, 360, 720, 1440, 2880, 10080, 43200];
    const most = Math.max(3, (this.width - this.left - this.right) / 70), range = this.high - this.low;
    const step = steps.find((each) => range / each <= most) ?? Math.ceil(range / most / 43200) * 43200;
    const shift = choice.local ? new Date(this.low * 60000).getTimezoneOffset() : 0;
    const first = Math.ceil((this.low - shift) / step) * step + shift;
    const count = Math.max(0, Math.floor((this.high - first) / step) + 1);
    return { ticks: Array.from({ length: count }, (_, i) => first + i * step), areDays: step >= 1440 };
  }

  drawGrid() {
    const { ticks, areDays } = this.ticks();
    for (const at of ticks) this.line(at, "grid", this.top - 6);
    const isNewDay = (at, i) => i === 0 || day(at) !== day(ticks[i - 1]);
    if (!areDays) this.labelRow(ticks.map((at) => ({ text: clock(at), x: this.x(at) })), this.bottom + 15, "quiet");
    this.labelRow(ticks.filter(isNewDay).map((at) => ({ text: day(at), x: this.x(at) })), this.bottom + 30, "quiet");
  }

  drawOverdue() {
    if (this.eta === null || this.eta <= this.commit) return;
    const x = this.x(this.commit), y = this.top - 6;
    this.svg.append(shape("rect", { class: "overdue", x, y, width: this.x(this.eta) - x, height: this.bottom - y }));
  }

  drawRuns(runs, lane, kind) {
    for (const { leg, from, to } of runs) {
      const x = this.x(Math.min(from, to)), width = Math.max(2, Math.abs(this.x(to) - this.x(from)) - 1), y = this.lanes[lane];
      const its = this.wagon.legs?.[leg], name = its ? its.ru : "leg " + (leg + 1), way = its ? `, ${its.origin} → ${its.target}` : "";
      const note = `${lane}: ${name}${way}, ${clock(from)} to ${clock(to)} (${span(Math.abs(to - from))})`;
      this.box({ class: `leg${leg % 4} ${kind}`, x, y, width, height: 25, rx: 4 }, note);
      if (width > widthOf(name, "on") + 6) this.names.push([name, x + width / 2, y + 17, kind ? "over" : "on leg" + (leg % 4)]);
    }
  }

  box(attributes, note) {
    this.svg.append(shape("rect", attributes, shape("title", {}, note)));
  }

  drawStays() {
    for (const { from, to, place } of this.reported.stays) {
      const x = this.x(from), width = Math.max(2, this.x(to) - x);
      this.box({ class: "yard", x, y: this.lanes.Reported + 20, width, height: 5 }, "in the yard " + place);
    }
  }

  drawReports() {
    const y = this.lanes.Events + 12;
    const reports = [...this.reported.reports].sort((a, b) => isBad(a.event) - isBad(b.event));
    for (const report of reports) {
      const dot = { class: "dot" + (isBad(report.event) ? " bad" : ""), cx: this.x(report.at), cy: y, r: 4.5 };
      this.svg.append(shape("circle", dot, shape("title", {}, eventNote(report))));
    }
    const text = ({ delay }) => (delay === undefined ? "refused" : "+" + span(delay));
    const bad = reports.filter(({ event }) => isBad(event));
    this.labelRow(bad.map(({ at, event }) => ({ text: text(event), x: this.x(at) })), y + 20, "late");
  }

  drawEstimates() {
    for (const { at, event } of this.reported.estimates) {
      const d = `M ${this.x(at)} ${this.lanes.Expected + 25} l 6 6 l -6 6 l -6 -6 z`;
      this.svg.append(shape("path", { class: "dot", d }, shape("title", {}, "Estimate of " + event.by + ": " + when(event.at))));
    }
  }

  drawPlaces() {
    if (!this.wagon.legs) return;
    const { runs } = this.planned, legs = this.wagon.legs;
    const targets = runs.map(({ leg, to }) => ({ text: legs[leg].target, x: this.x(to) }));
    const places = [{ text: legs[0].origin, x: this.x(runs[0].from) }, ...targets];
    // The ends of the trip before what is between them.
    this.labelRow([places[0], places.at(-1), ...places.slice(1, -1)], this.bottom + 47, "quiet");
  }

  // The promised and the expected moment, and now, each label on a line of its own over the lanes.
  drawMoments() {
    const now = Date.now() / 60000, { late } = this.wagon.record;
    if (now > this.low && now < this.high) this.moment(now, "now " + clock(now), 46, "now", "now");
    this.moment(this.commit, "promised " + whenAt(this.commit), 13, "strong", "promise");
    if (this.eta === null) return;
    this.moment(this.eta, this.etaName() + " " + whenAt(this.eta), 30, late ? "late" : "good", late ? "expected late" : "expected");
  }
}

class JourneyView {
  constructor() {
    this.head = element("h2", { tabindex: -1 });
    this.body = element("div");
    this.root = element("div", {}, element("p", { class: "screen" }, element("a", { href: "#" }, "← all wagons")), this.head, this.body);
  }

  update() {
    const [, number] = address(), detail = known.details.get(number);
    const listed = known.wagons.find((wagon) => wagon.number === number);
    const wagon = detail ? new Wagon(detail.record, detail.legs ?? listed?.legs) : listed;
    const late = wagon?.record.late ? element("span", { class: "tag late" }, "late by " + span(wagon.lateBy)) : "";
    this.head.replaceChildren("Wagon " + (isNumber(number) ? mark(number) : number), " ", late);
    this.body.replaceChildren(...(wagon ? this.parts(wagon) : [element("p", { class: "none" }, this.why(number))]));
    if (detail) this.drawPicture(wagon);
  }

  drawPicture(wagon) {
    const { paddingLeft, paddingRight } = getComputedStyle(this.holder);
    const width = this.holder.clientWidth - parseFloat(paddingLeft) - parseFloat(paddingRight);
    this.holder.replaceChildren(new Picture(wagon, Math.max(300, Math.floor(width))).draw(), this.explanation(wagon));
  }

  why(number) {
    const refusal = known.refusals.get(number);
    if (refusal?.why === "not_yours") return owner + " is no railway of this wagon's trip: its record is not shown.";
    if (refusal || isFile || !isNumber(number)) return "No plan names this wagon.";
    return known.lostSince ? "There is no connection to the hub." : "loading";
  }

  explanation(wagon) {
    const dots = "Dots are reports; red ones delay the wagon. Diamonds are estimates of railways. Light strips: in a yard.";
    const isReleased = wagon.record.events.some((event) => event.kind === "release");
    const planned = isReleased ? "from the release, with the minutes of the legs." : "the latest times that keep the promise.";
    const legs = wagon.legs ? "Planned: " + planned : "The legs of this wagon are not known here.";
    return element("p", { class: "key" }, `${legs} ${dots} Times in ${zone()}.`);
  }

  parts(wagon) {
    const sheet = (inner, kind = "") => element("div", { class: "sheet block " + kind }, inner), { events } = wagon.record;
    this.holder = sheet(element("p", { class: "none" }, known.lostSince ? "There is no connection to the hub." : "loading"), "picture");
    const legs = wagon.legs ? [element("h2", {}, "Legs"), sheet(this.legTable(wagon))] : [];
    const reports = events.length ? [element("h2", {}, "Events"), sheet(this.eventTable(events))] : [];
    return [this.holder, sheet(this.facts(wagon)), ...legs, ...reports];
  }

  facts(wagon) {
    const { record } = wagon;
    const arrival = wagon.isOver ? wagon.stage : "Expected";
    const pairs = [
      ["Stage", stageTag(wagon)], ["Where", wagon.where],
      ["Responsible railway undertaking", railway(record.responsible)], ["Lead railway undertaking", railway(record.lead)],
      ["Promised", time(record.commit)], [arrival, time(record.eta)], ["Late by", latenessTag(wagon)], ["Leg", legText(wagon)],
      ["Consignment", record.consignment], ["Load", record.load], ["Status", STATUSES[record.status] ?? record.status],
      ["Units", wagon.units.join(", ") || "–"],
    ];
    const isLong = (value) => value.length > 40;
    const block = ([name, value]) =>
      element("div", { class: isLong(value) ? "whole" : null }, element("dt", {}, name), element("dd", {}, value));
    return element("dl", { class: "facts" }, pairs.map(block));
  }

  legTable(wagon) {
    const { runs } = reportedJourney(wagon.record), current = wagon.isOver ? null : wagon.record.leg;
    const end = (leg) => {
      const isOver = leg < wagon.record.leg || wagon.isOver, estimate = wagon.record.estimates.find((each) => each.leg === leg);
      const at = isOver ? runs.find((run) => run.leg === leg)?.to : minutesOf(estimate?.at);
      return at === null || at === undefined ? "–" : whenAt(at) + (isOver ? " reported" : " expected");
    };
    const row = ({ ru, origin, target, minutes }, leg) =>
      [leg + 1 + (leg === current ? " (current)" : ""), railway(ru), origin, target, span(minutes), end(leg)];
    return plainTable("Legs of the journey", ["Leg", "Railway", "From", "To", "Takes", "At its end"], wagon.legs.map(row));
  }

  eventTable(events) {
    const text = (event) => (event.delay ? element("span", { class: "tag late" }, eventText(event)) : eventText(event));
    const moment = (event) => (event.kind === "eti" ? "–" : time(event.at));
    const row = (event) => [moment(event), eventName(event), railway(event.by), String(event.no), text(event)];
    return plainTable("Events of the journey, oldest first", ["Moment", "Event", "By", "Message", "What it says"], events.map(row));
  }
}

function plainTable(caption, heads, rows) {
  const cell = (value, i) => element(i ? "td" : "th", { scope: i ? null : "row" }, value);
  return element("table", {}, element("caption", { class: "unseen" }, caption),
    element("thead", {}, element("tr", {}, heads.map((text) => element("th", { scope: "col" }, text)))),
    element("tbody", {}, rows.map((row) => element("tr", {}, row.map(cell)))));
}

// ---- Which railway?

class EntryView {
  constructor() {
    const open = (event) => {
      event.preventDefault();
      location.href = event.target.elements.code.value.toUpperCase() + "/";
    };
    const form = { pattern: "[A-Za-z0-9]{4}", title: "four letters or digits", maxlength: 4, required: true, autocomplete: "off" };
    const input = element("input", { id: "code", name: "code", ...form });
    const title = element("h2", { tabindex: -1 }, element("label", { for: "code" }, "Which railway?"));
    this.root = element("form", { class: "card", onsubmit: open }, title, input, " ", element("button", {}, "Show its wagons"));
  }

  update() {}
}

// ---- The page

const content = byId("content"), live = byId("live"), said = byId("said");
const views = {
  wagons: new ListView(), interchanges: new InterchangeView(), alerts: new AlertView(), units: new UnitView(), wagon: new JourneyView(),
  entry: new EntryView(),
};
const scrolls = new Map();
let isWaiting = false;

// The name of the view, and of a wagon its number, by the address.
function address() {
  const [name, number = ""] = location.hash.slice(1).split("/");
  if (!owner && !isFile) return ["entry", ""];
  return [Object.hasOwn(views, name) && name !== "entry" ? name : "wagons", number];
}

const secondsOf = (date) => clock(date / 60000) + ":" + two(date.getSeconds());

function stateText() {
  if (isFile) return "a finished run";
  if (!owner) return "";
  if (isLocked) return "waits for the key";
  const readAt = known.readAt ? secondsOf(known.readAt) : null;
  if (known.lostSince) return "no connection since " + secondsOf(known.lostSince) + (readAt ? "; what is shown is of " + readAt : "");
  return readAt ? "live, " + readAt + (isWaiting ? "; drawn again once nothing is selected" : "") : "loading";
}

function drawState() {
  live.className = "live" + (known.lostSince || isLocked ? " lost" : isFile || !known.readAt ? " still" : "");
  setText(live, stateText());
}

function drawHead() {
  const { all, late, offers, toAnswer, units } = known.counts, [name] = address();
  document.title = (late ? "(" + late + ") " : "") + (owner ? owner + ": wagons" : "Wagons");
  setText(byId("title"), owner ? "Wagons of " + owner : isFile ? "All wagons" : "Wagons");
  byId("forget").hidden = !keyOf();
  const links = [
    viewLink("wagons", "Wagons", all, ""), viewLink("interchanges", "Interchanges", offers, toAnswer ? "wait" : ""),
    viewLink("alerts", "Alerts", late, late ? "late" : ""), viewLink("units", "Units", units, ""),
  ];
  const nav = byId("views"), isEntry = name === "entry";
  nav.replaceChildren(...(isEntry ? [] : links));
  // On a phone the current view may stand beyond the edge.
  const current = nav.querySelector("[aria-current]");
  if (current) nav.scrollLeft = current.offsetLeft + current.offsetWidth - nav.offsetLeft - nav.clientWidth;
  byId("zone").hidden = live.hidden = isEntry;
  drawState();
}

function viewLink(view, text, count, kind) {
  const [name] = address(), isCurrent = name === view || (name === "wagon" && view === "wagons");
  const attributes = { id: "view-" + view, href: view === "wagons" ? "#" : "#" + view, "aria-current": isCurrent ? "page" : null };
  return element("a", attributes, text, " ", element("span", { class: "count " + kind }, String(count)));
}

const thisMinute = () => Math.floor(Date.now() / 60000);

// Draws all that is shown, and leaves the focus where it was.
function draw() {
  isWaiting = false;
  known.drawn = known.version;
  known.minute = thisMinute();
  const focused = document.activeElement?.id;
  drawHead();
  const [name] = address(), view = views[name];
  if (content.firstChild !== view.root) content.replaceChildren(view.root);
  view.update();
  if (focused && document.activeElement?.id !== focused) byId(focused)?.focus({ preventScroll: true });
  document.body.dataset.ready = isFile || known.readAt || isLocked || name === "entry" ? "yes" : "no";
}

// Draws what has come, unless someone has selected text to copy it.
function drawNews() {
  isWaiting = !getSelection().isCollapsed && content.contains(getSelection().anchorNode);
  if (isWaiting) drawState();
  else draw();
}

// ---- What has come

const legsByWagon = (text) => new Map((text?.legs ?? []).map(({ wagon, legs }) => [wagon, legs]));

function takeWagons(records) {
  known.version += 1;
  known.wagons = records.map((record) => new Wagon(record, known.legs.get(record.wagon))).sort(urgency);
  const stages = Object.fromEntries(STAGE_NAMES.map((name) => [name, 0])), late = new Set(), toAnswer = new Set();
  let mine = 0, units = 0;
  for (const wagon of known.wagons) {
    const { stage, responsible } = wagon.record;
    stages[stage] += 1;
    units += wagon.units.length;
    if (responsible === owner) mine += 1;
    if (wagon.isAlert) late.add(wagon.number);
    if (stage === "offered" && isToAnswer(wagon)) toAnswer.add(wagon.number);
  }
  known.counts = { all: known.wagons.length, late: late.size, mine, offers: stages.offered, toAnswer: toAnswer.size, units, stages };
  announce(late, toAnswer);
}

// Says to a screen reader what is new: wagons that became late, and offers that came.
function announce(late, toAnswer) {
  const before = known.announced;
  // The first version is the empty list with which the page begins.
  known.announced = known.version > 1 ? { late, toAnswer } : null;
  for (const number of known.lateSince.keys()) if (!late.has(number)) known.lateSince.delete(number);
  if (!before) return;
  const newLate = [...late].filter((number) => !before.late.has(number));
  const newOffers = [...toAnswer].filter((number) => !before.toAnswer.has(number));
  for (const number of newLate) known.lateSince.set(number, new Date());
  const offers = sentences(newOffers, "is offered to " + owner, "are offered to " + owner);
  const texts = [...sentences(newLate, "is late", "are late"), ...offers];
  if (texts.length) said.textContent = texts.join(" ");
}

function sentences(numbers, one, many) {
  const named = numbers.slice(0, NAMED_ALERTS).map((number) => "Wagon " + mark(number) + " " + one + ".");
  const more = numbers.length - named.length;
  return more ? [...named, more + " more wagons " + many + "."] : named;
}

// ---- Reading

class KeyWanted extends Error {}

// The answer to a GET: its text as JSON, none where nothing came since the tag. A key goes into the header alone.
async function request(path, tag) {
  const headers = { ...(tag ? { "if-none-match": tag } : {}), ...(keyOf() ? { authorization: "Bearer " + keyOf() } : {}) };
  const answer = await fetch(path, { cache: "no-store", headers, signal: AbortSignal.timeout(PATIENCE) });
  if (answer.status === 401) throw new KeyWanted();
  if (answer.status === 304) return { isSame: true };
  if (!answer.ok && answer.status !== 404) throw new Error("status " + answer.status);
  const isText = answer.headers.get("content-type")?.startsWith("application/json");
  return { tag: answer.headers.get("etag"), text: isText ? await answer.json() : null };
}

// The legs are read behind the wagons, so they are never older. Where the server has none the page shows what it can.
async function readFleet() {
  const wagons = await request("wagons.json", known.tags.wagons);
  if (wagons.isSame) return;
  if (!wagons.text?.records) throw new Error("no records");
  const legs = await request("legs.json", known.tags.legs);
  if (!legs.isSame) known.legs = legsByWagon(legs.text);
  known.tags = { wagons: wagons.tag, legs: legs.isSame ? known.tags.legs : legs.tag };
  takeWagons(wagons.text.records);
}

const isFresh = (number) => (known.details.get(number) ?? known.refusals.get(number))?.version === known.version;

async function readRecord(number) {
  const { version } = known, { text } = await request("wagons/" + number + ".json");
  known.read += 1;
  known.details.delete(number);
  known.refusals.delete(number);
  if (text?.record) known.details.set(number, { record: text.record, legs: null, version });
  else known.refusals.set(number, { why: text?.why, version });
}

async function readWagon(number) {
  if (!isNumber(number)) return;
  const [, legs] = await Promise.all([readRecord(number), request("wagons/" + number + "/legs.json")]);
  const detail = known.details.get(number);
  if (detail) detail.legs = legs.text?.legs ?? null;
}

function lose(error) {
  if (error instanceof KeyWanted) return askForKey();
  if (!known.lostSince) said.textContent = "There is no connection to the hub.";
  known.lostSince ??= new Date();
}

function find() {
  if (known.lostSince) {
    said.textContent = "The hub is connected again.";
    // What could not be read meanwhile is read with the next drawing.
    known.drawn = 0;
  }
  known.lostSince = null;
  known.readAt = new Date();
}

async function look() {
  try {
    await readFleet();
    const [name, number] = address();
    if (name === "wagon" && !isFresh(number)) await readWagon(number);
    find();
  } catch (error) {
    lose(error);
  }
}

let looking = null, isLooking = false, isLocked = false;

async function poll() {
  if (isLooking) return;
  isLooking = true;
  clearTimeout(looking);
  const began = performance.now(), { version } = known;
  await look();
  isLooking = false;
  // The line of this moment in the picture goes on by the minute.
  const isNew = known.drawn !== known.version || document.body.dataset.ready !== "yes";
  if (isNew || (address()[0] === "wagon" && known.minute !== thisMinute())) drawNews();
  else drawState();
  if (isLocked) return;
  const rest = Math.max(POLL - (performance.now() - began), version === known.version ? 0 : known.wagons.length / WAGONS_PER_REST);
  looking = setTimeout(poll, document.hidden ? POLL_HIDDEN : rest);
}

// ---- The key of the railway: in the memory of this tab alone

let heldKey = null;

function keyOf() {
  try {
    return heldKey ?? sessionStorage.getItem("key of " + owner);
  } catch {
    return null;
  }
}

function keepKey(key) {
  heldKey = key;
  try {
    if (key) sessionStorage.setItem("key of " + owner, key);
    else sessionStorage.removeItem("key of " + owner);
  } catch {
    // A browser that stores nothing asks again when the page is loaded again.
  }
}

function askForKey() {
  setText(byId("key-title"), "Key of " + owner);
  setText(byId("key-why"), keyOf() ? "That is not the key of " + owner + "." : "The hub shows these wagons to " + owner + " alone.");
  keepKey(null);
  isLocked = true;
  openKeyDialog();
}

function openKeyDialog() {
  if (!byId("key-dialog").open) byId("key-dialog").showModal();
}

function takeKey(event) {
  event.preventDefault();
  keepKey(byId("key").value);
  byId("key").value = "";
  byId("key-dialog").close();
  isLocked = false;
  poll();
}

// Nothing that the key had shown stays on the page.
function forgetKey() {
  keepKey(null);
  location.reload();
}

// ---- Beginning

async function turn(event) {
  const [name, number] = address(), [, old = ""] = (event?.oldURL ?? "").split("#");
  scrolls.set(old.split("/")[0], window.scrollY);
  draw();
  window.scrollTo(0, name === "wagon" ? 0 : scrolls.get(location.hash.slice(1)) ?? 0);
  if (event) {
    const back = old.startsWith("wagon/") ? byId("to-" + old.slice(6)) : null;
    (back ?? views[name].root.querySelector("h2"))?.focus({ preventScroll: true });
  }
  if (isFile || name !== "wagon" || !known.readAt || isFresh(number)) return;
  try { await readWagon(number) } catch (error) { lose(error) }
  drawNews();
}

function changeZone() {
  choice.local = !choice.local;
  byId("zone").setAttribute("aria-pressed", String(choice.local));
  setText(byId("zone"), "Times in " + zone());
  draw();
}

function readInside() {
  const text = (name) => (inside[name] ? JSON.parse(inside[name].textContent) : null);
  const records = text("records")?.records ?? [];
  known.legs = legsByWagon(text("legs"));
  for (const record of records) known.details.set(record.wagon, { record, legs: known.legs.get(record.wagon) });
  takeWagons(text("wagons")?.records ?? records);
  known.readAt = new Date();
}

function begin() {
  history.scrollRestoration = "manual";
  byId("zone").addEventListener("click", changeZone);
  byId("forget").addEventListener("click", forgetKey);
  byId("skip").addEventListener("click", (event) => { event.preventDefault(); content.focus() });
  byId("key-form").addEventListener("submit", takeKey);
  // Escape closes the dialog. As long as the key is wanted it opens again.
  byId("key-dialog").addEventListener("close", () => { if (isLocked) openKeyDialog() });
  document.addEventListener("copy", copySelected);
  document.addEventListener("selectionchange", () => { if (isWaiting && getSelection().isCollapsed) draw() });
  document.addEventListener("visibilitychange", () => { if (!document.hidden && owner && !isFile && !isLocked) poll() });
  window.addEventListener("hashchange", turn);
  window.addEventListener("beforeprint", () => { for (const table of tables) table.draw(0, ROWS_PRINTED) });
  window.addEventListener("afterprint", () => { for (const table of tables) table.draw() });
  let resized;
  window.addEventListener("resize", () => { clearTimeout(resized); resized = setTimeout(draw, 150) });
  takeWagons([]);
  if (isFile) readInside();
  turn();
  if (!isFile && owner) poll();
}

begin();
</script>
</body>
</html>
"##;

//! The page: one text with its style and its script, and nothing from elsewhere.

/// The policy for browsers: they may run the script of the page and use its style, by their hashes, and ask the server
/// itself. `tools/page-policy --write` computes the hashes.
pub const POLICY: &str =
    "default-src 'none'; connect-src 'self'; script-src 'sha256-2/rToNElQLM0s+xgJRyVAUdHWTdzx86+pUuC7AVFyZ8='; style-src 'sha256-S2OK/3jFGzhxX59B5bvWp9SZKq5+ulgFhhsqoTbxAT4='; base-uri 'none'; form-action 'none'; frame-ancestors 'none'";

/// The page. It asks for `status.json` once a second, and shows each text in it as text.
pub const PAGE: &str = r##"<!doctype html>
<html lang="en">
<head>
<meta charset="utf-8">
<meta name="viewport" content="width=device-width, initial-scale=1">
<title>ftpd</title>
<style>
:root {
  color-scheme: light dark;
  --page: #fff; --ink: #1b1b1f; --faint: #5f6368; --rule: #d5d7db; --bad: #b3261e; --foot: #0005;
  --nothing: #8b9098; --c0: #2f6fd0; --c1: #c8670a; --c2: #0b8a8a; --c3: #b5407c; --c4: #7a4fc4;
  --c5: #5f8a1b; --c6: #a0522d; --c7: #a98300; --c8: #46759c; --c9: #8b5a8b;
}
@media (prefers-color-scheme: dark) {
  :root {
    --page: #16181c; --ink: #e8e9ec; --faint: #a2a7b0; --rule: #3a3e45; --bad: #ff8a80; --foot: #0007;
    --nothing: #7e848d; --c0: #6ea8fe; --c1: #f0a04b; --c2: #3cc4c4; --c3: #ee82b4; --c4: #b493f0;
    --c5: #a5cf5a; --c6: #d99a72; --c7: #e0c04a; --c8: #8fc0e6; --c9: #cfa0cf;
  }
}
body { margin: 0 auto; padding: 1rem; max-width: 76rem; background: var(--page); color: var(--ink);
  font: 1rem/1.4 system-ui, sans-serif; }
h1 { font-size: 1.3rem; margin: 0; }
h2 { font-size: 1.05rem; margin: 1.1rem 0 .3rem; }
header { display: flex; flex-wrap: wrap; gap: .3rem 1rem; align-items: baseline; }
p { margin: .3rem 0; }
button { font: inherit; }
.faint { color: var(--faint); }
#lines .faint { font-size: .9rem; }
.bad { color: var(--bad); font-weight: 600; }
.lost { border: 2px solid var(--bad); padding: .4rem .7rem; border-radius: .3rem; }
.stale main { opacity: .45; }
.wide { overflow-x: auto; }
.wide:focus-visible { outline: 2px solid var(--c0); }
#lines { display: grid; grid-template-columns: repeat(auto-fit, minmax(17rem, 1fr)); gap: .6rem 2rem; margin: .7rem 0; }
.track { position: relative; height: .7rem; background: var(--rule); border-radius: .35rem; overflow: hidden; margin-top: .15rem; }
.track i { position: absolute; height: 100%; }
table { border-collapse: collapse; width: 100%; font-variant-numeric: tabular-nums; font-size: .93rem; }
th, td { padding: .15rem .5rem .15rem 0; text-align: left; white-space: nowrap; border-bottom: 1px solid var(--rule);
  max-width: 7rem; overflow: hidden; text-overflow: ellipsis; }
.held { max-width: 14rem; }
.number { text-align: right; }
.mark { display: inline-block; width: .8em; height: .8em; border-radius: .15em; margin-right: .4em; }
ul { list-style: none; padding: 0; margin: .3rem 0; display: flex; flex-wrap: wrap; gap: .1rem 1.2rem; }
svg { display: block; font: 11px system-ui, sans-serif; }
svg text { fill: var(--ink); }
.nothing { fill: var(--nothing); background: var(--nothing); }
.c0 { fill: var(--c0); background: var(--c0); } .c1 { fill: var(--c1); background: var(--c1); }
.c2 { fill: var(--c2); background: var(--c2); } .c3 { fill: var(--c3); background: var(--c3); }
.c4 { fill: var(--c4); background: var(--c4); } .c5 { fill: var(--c5); background: var(--c5); }
.c6 { fill: var(--c6); background: var(--c6); } .c7 { fill: var(--c7); background: var(--c7); }
.c8 { fill: var(--c8); background: var(--c8); } .c9 { fill: var(--c9); background: var(--c9); }
.foot { fill: var(--foot); background: var(--foot); }
.missing { fill: none; stroke: var(--bad); stroke-width: 2; stroke-dasharray: 4 3; }
.lid { stroke: var(--bad); stroke-width: 2; }
.level { stroke: var(--ink); stroke-dasharray: 6 4; }
.base { stroke: var(--rule); }
svg .scale { fill: var(--faint); }
@media (max-width: 40rem) {
  .more { display: none; }
  .held { max-width: none; white-space: normal; }
}
</style>
</head>
<body>
<header>
<h1>ftpd</h1>
<p id="summary" class="faint">asking the server</p>
<button id="pause" type="button">Pause</button>
</header>
<p id="lost" class="lost" role="alert" hidden></p>
<noscript><p class="lost">This page needs scripts; <a href="status.json">status.json</a> has its numbers.</p></noscript>
<main>
<p id="among" class="faint" hidden>Shared among users first, and then among the transfers of each.</p>
<div id="lines"></div>
<div id="alarms" role="status"></div>
<p id="none" hidden>No transfers.</p>
<section id="down" hidden>
<h2>To clients</h2>
<div class="wide" tabindex="0" role="group" aria-label="To clients, a column for each transfer">
<svg id="down-chart" role="img" aria-label="The table below has the same numbers"></svg>
</div>
<ul id="down-limits" aria-label="Colours: the limit that holds a transfer back"></ul>
</section>
<section id="up" hidden>
<h2>From clients</h2>
<div class="wide" tabindex="0" role="group" aria-label="From clients, a column for each transfer">
<svg id="up-chart" role="img" aria-label="The table below has the same numbers"></svg>
</div>
<ul id="up-limits" aria-label="Colours: the limit that holds a transfer back"></ul>
</section>
<p id="key" class="faint" hidden>A column is a transfer, its height the octets granted in a second, its colour the limit that holds
it back. Dark foot: guaranteed; dashed box: missing of it. Lid: the lesser rate of the user and the session. Dashed line: what a
limit leaves to each whom it holds back. A line above has the colour of its columns, grey if it holds nobody back.</p>
<section id="history" hidden>
<h2>Last ten minutes, by user <span id="past-most" class="faint"></span></h2>
<svg id="past" role="img" aria-label="Octets granted a second in the last ten minutes"></svg>
<ul id="past-users" aria-label="Colours: users"></ul>
</section>
<h2>Transfers</h2>
<div class="wide" tabindex="0" role="group" aria-label="Transfers">
<table>
<thead><tr><th scope="col">user</th><th scope="col" class="number">rate</th><th scope="col" class="held">held by</th>
<th scope="col" class="number">guaranteed</th><th scope="col" class="number more">own limit</th>
<th scope="col" class="number more">done</th><th scope="col" class="more">file</th><th scope="col" class="more">way</th>
<th scope="col" class="more">group</th><th scope="col" class="more">session</th><th scope="col" class="more">from</th></tr></thead>
<tbody id="transfers"></tbody>
</table>
</div>
<section id="inside" hidden>
<h2>Sessions without a transfer <span id="idle-number" class="faint"></span></h2>
<div class="wide" tabindex="0" role="group" aria-label="Sessions without a transfer">
<table>
<thead><tr><th scope="col">user</th><th scope="col" class="number">idle</th><th scope="col" class="number">inside</th>
<th scope="col" class="number held">guaranteed</th><th scope="col" class="more">group</th><th scope="col" class="more">session</th>
<th scope="col" class="more">from</th></tr></thead>
<tbody id="idle"></tbody>
</table>
</div>
</section>
</main>
<script>
"use strict";
const KINDS = ["server", "direction", "group", "user", "session", "nothing"];
const WAYS = ["down", "up"];
const COLOURS = 10, KEPT_MICROS = 600e6, BASE = 160, ROOM = 72, LONGEST = 20, MOST_IDLE = 12;
const byId = id => document.getElementById(id);
const sum = numbers => numbers.reduce((a, b) => a + b, 0);
const whole = n => Math.round(n).toLocaleString("en");
const rateText = n => n === null ? "-" : n >= 999500 ? (n / 1e6).toFixed(2) + " MB/s" : (n / 1e3).toFixed(1) + " kB/s";
const megabits = n => (n * 8 / 1e6).toFixed(n < 1.25e6 ? 2 : 1);
const amountText = n => n >= 999.5e6 ? (n / 1e9).toFixed(2) + " GB" : n >= 999500 ? (n / 1e6).toFixed(1) + " MB" : (n / 1e3).toFixed(1) + " kB";
const timeText = seconds => seconds < 120 ? Math.round(seconds) + " s" : Math.floor(seconds / 60) + " min";
const pair = (now, rate) => rate >= 999500 ? `${(now / 1e6).toFixed(2)} of ${rateText(rate)}` : `${(now / 1e3).toFixed(1)} of ${rateText(rate)}`;
const percent = part => Math.round(100 * part) + " %";
const cut = (text, most) => [...text].length > most ? [...text].slice(0, most - 1).join("") + "…" : text;
const roomWide = () => Math.min(1160, byId("lines").clientWidth);
let last = null, paused = false, answered = null;
// The seconds of the last ten minutes, each with the octets of each user, and since when each guarantee is not met.
let past = [], unmet = new Map();
// The colours of the limits that held somebody back in these ten minutes, and of the users who had most, by name.
const limitColours = new Map(), userColours = new Map();

// Each of these names keeps its colour, and a new one takes the first of those that the fewest have.
function giveColours(colours, names) {
  for (const name of colours.keys()) if (!names.includes(name)) colours.delete(name);
  for (const name of names.filter(it => !colours.has(it))) {
    const taken = new Array(COLOURS).fill(0);
    for (const style of colours.values()) taken[style.slice(1)] += 1;
    colours.set(name, "c" + taken.indexOf(Math.min(...taken)));
  }
}

// The lesser of two rates, each of which may be missing.
function lesser(a, b) {
  return a === null ? b : b === null ? a : Math.min(a, b);
}

function put(parent, name, text, style) {
  const child = document.createElement(name);
  if (text !== undefined) child.textContent = text;
  if (style) child.className = style;
  parent.append(child);
  return child;
}

function draw(parent, name, attributes, text) {
  const child = document.createElementNS("http://www.w3.org/2000/svg", name);
  for (const key in attributes) child.setAttribute(key, attributes[key]);
  if (text !== undefined) child.textContent = text;
  parent.append(child);
  return child;
}

// Makes a drawing of this size, with nothing in it.
function setSize(chart, wide, high) {
  for (const [name, value] of [["width", wide], ["height", high], ["viewBox", `0 0 ${wide} ${high}`]]) chart.setAttribute(name, value);
  chart.replaceChildren();
}

// Returns whether the line is shared among users: then two transfers that one limit holds back may get different rates.
const isByUsers = status => status.shared_among === "users";

// The limit that holds a transfer back, by the name that `ftpd plan` gives it; its client for none.
function limitName(kind, { direction, group, user }, most) {
  if (kind === "direction") return "server " + direction;
  if (kind === "group") return `group ${cut(group ?? "?", most)} ${direction}`;
  if (kind === "user") return `user ${cut(user, most)} ${direction}`;
  if (kind === "session") return "session " + direction;
  return kind === "nothing" ? "client" : kind;
}

// Whose limit it is: each user has a rate of a session of their own.
function ownerName(kind, transfer, most) {
  return limitName(kind, transfer, most) + (kind === "session" ? " of " + cut(transfer.user, most) : "");
}

// The course of a transfer since the status before, or since it began.
function measured(transfer, was, micros, before) {
  const from = was ? before : transfer.begun, time = (micros - from) / 1e6;
  const granted = transfer.granted - (was ? was.granted : 0);
  const rounds = KINDS.map(kind => transfer.held[kind] - (was ? was.held[kind] : 0));
  const most = Math.max(...rounds);
  const kind = most > 0 ? KINDS[rounds.indexOf(most)] : "nothing";
  const rate = time > 0 ? Math.max(0, granted / time) : 0;
  return {
    transfer, kind, from, rate, limit: ownerName(kind, transfer, Infinity), part: most > 0 ? most / sum(rounds) : 0,
    own: lesser(transfer.user_rate, transfer.session_rate),
    lacks: !transfer.waiting && kind !== "nothing" && transfer.guaranteed !== null && rate < 0.9 * transfer.guaranteed,
  };
}

const key = transfer => transfer.session + " " + transfer.begun;

// The courses of all transfers, in an order that rates do not change: by the limit, the outer one first, then by what is
// guaranteed and by user.
function measuredAll(status, old) {
  const earlier = new Map((old ? old.transfers : []).map(t => [key(t), t]));
  return status.transfers.map(t => measured(t, earlier.get(key(t)), status.micros, old?.micros)).sort((a, b) =>
    KINDS.indexOf(a.kind) - KINDS.indexOf(b.kind) || a.limit.localeCompare(b.limit)
    || (b.transfer.guaranteed ?? 0) - (a.transfer.guaranteed ?? 0)
    || a.transfer.user.localeCompare(b.transfer.user) || a.transfer.session - b.transfer.session);
}

// The colour of a limit, grey if it holds nobody back.
function styleOf(limit, rows) {
  return rows.some(r => r.limit === limit && r.kind !== "nothing" && !r.transfer.waiting) ? limitColours.get(limit) : "nothing";
}

// Octets a second that users who pass a test got in these directions since the status before, by transfers that have ended
// too; without one, by those that are there.
function gotSince(status, old, rows, ways, inside) {
  if (old === null) return sum(rows.filter(r => ways.includes(r.transfer.direction) && inside(r.transfer)).map(r => r.rate));
  const granted = ({ accounts }) => sum(accounts.filter(inside).flatMap(it => ways.map(way => it["granted_" + way])));
  return Math.max(0, (granted(status) - granted(old)) * 1e6 / (status.micros - old.micros));
}

// Octets issued a second, both ways together.
function issuedSince(status, old, rows) {
  return old === null ? gotSince(status, old, rows, WAYS, () => true) : Math.max(0, (status.issued - old.issued) * 1e6 / (status.micros - old.micros));
}

// One line: what is used of it, and what is guaranteed to all sessions; as a bar, and in megabits.
function addLine(name, shown, now, style, rate, promised) {
  const line = put(byId("lines"), "div"), text = put(line, "div");
  put(text, "b", shown + " ").title = name;
  text.append(rate === null ? rateText(now) + ", no limit" : pair(now, rate) + ", ");
  if (rate !== null) {
    const part = amount => Math.min(1, amount / Math.max(1, rate)), track = put(line, "div", undefined, "track");
    if (now >= 0.985 * rate) put(text, "b", "full");
    else text.append(percent(part(now)));
    for (const [amount, look] of [[now, style], [promised, "foot"]])
      put(track, "i", undefined, look).style.width = Math.round(100 * part(amount)) + "%";
  }
  put(line, "div", (rate === null ? "" : megabits(now) + " of ") + megabits(rate ?? now) + " Mbit/s"
    + (promised > 0 ? `, guaranteed ${megabits(promised)} (${rateText(promised)})` : ""), "faint");
}

function fillLines(status, old, rows) {
  byId("lines").replaceChildren();
  byId("among").hidden = !isByUsers(status);
  const promised = (limit, way) => limit["guaranteed_" + way] ?? 0;
  const got = (direction, inside) => gotSince(status, old, rows, [direction], inside);
  const add = (kind, transfer, now, rate, least) => {
    const name = limitName(kind, transfer, Infinity);
    addLine(name, limitName(kind, transfer, LONGEST), now, styleOf(name, rows), rate, least);
  };
  if (status.line.both !== null)
    add("server", {}, issuedSince(status, old, rows), status.line.both, promised(status, "down") + promised(status, "up"));
  for (const direction of WAYS)
    add("direction", { direction }, got(direction, () => true), status.line[direction], promised(status, direction));
  for (const group of status.groups)
    for (const direction of WAYS.filter(way => group[way] !== null))
      add("group", { direction, group: group.name }, got(direction, it => it.group === group.name), group[direction],
        promised(group, direction));
}

// Keeps since when each guarantee is not met.
function keepUnmet(rows) {
  unmet = new Map(rows.filter(r => r.lacks).map(r => [key(r.transfer), unmet.get(key(r.transfer)) ?? r.from]));
}

// In words: guarantees that are not met and who waits, since when.
function fillAlarms(status, rows) {
  const alarms = byId("alarms"), missed = rows.filter(r => r.lacks), waiting = rows.filter(r => r.transfer.waiting);
  const who = r => `${cut(r.transfer.user, LONGEST)} #${r.transfer.session}`, since = micros => timeText((status.micros - micros) / 1e6);
  alarms.replaceChildren();
  if (missed.length > 0) put(alarms, "p", "Guarantee not met: " + missed.map(r => `${who(r)} ${rateText(r.rate)} of `
    + `${rateText(r.transfer.guaranteed)} for ${since(unmet.get(key(r.transfer)))}`).join(", "), "bad");
  if (waiting.length > 0) put(alarms, "p", `${waiting.length} of ${rows.length} wait for a lane: ` + waiting.map(r =>
    `${who(r)} for ${since(r.transfer.begun)}`
    + (r.transfer.guaranteed === null ? "" : ` (guaranteed ${rateText(r.transfer.guaranteed)})`)).join(", "), "bad");
}

// Transfers by the limit that holds them back.
function byLimit(rows) {
  const groups = new Map();
  for (const row of rows) groups.set(row.limit, [...(groups.get(row.limit) ?? []), row]);
  return [...groups].map(([limit, held]) => ({ limit, kind: held[0].kind, held, style: styleOf(limit, held) }));
}

// Level of a limit: the most that it leaves to one whom it holds back, without a guarantee. Who is guaranteed as
// much or more does not move it; if all are, there is none.
function levelOf({ kind, held }) {
  const without = held.filter(r => r.transfer.guaranteed === null || r.rate > 1.05 * r.transfer.guaranteed);
  const unpromised = without.filter(r => r.transfer.guaranteed === null);
  const rates = (unpromised.length > 0 ? unpromised : without).map(r => r.rate);
  return kind === "nothing" || rates.length === 0 ? null : Math.max(...rates);
}

// The top of a scale that has room for a rate: it is round, so that a little more does not change it.
function roundTop(rate) {
  const unit = 10 ** Math.floor(Math.log10(rate));
  return unit * [1, 1.2, 1.5, 2, 2.5, 3, 4, 5, 6, 8, 10].find(it => it * unit >= rate);
}

function drawColumn(chart, row, style, x, width, y) {
  const { transfer, rate, limit, own } = row, promised = transfer.guaranteed ?? 0;
  const column = draw(chart, "g", {});
  draw(column, "title", {}, `${transfer.user}, session ${transfer.session}: ${rateText(rate)}, held by ${limit}`);
  draw(column, "rect", { x, y: y(rate), width, height: BASE - y(rate), class: style });
  const foot = y(Math.min(promised, rate));
  draw(column, "rect", { x, y: foot, width, height: BASE - foot, class: "foot" });
  if (row.lacks) draw(column, "rect", { x: x + 1, y: y(promised), width: width - 2, height: y(rate) - y(promised), class: "missing" });
  if (own !== null && y(own) >= 6) draw(column, "line", { x1: x - 1, x2: x + width + 1, y1: y(own), y2: y(own), class: "lid" });
  draw(column, "text", { transform: `translate(${x + width / 2 - 3}, ${BASE + 6}) rotate(90)` }, cut(transfer.user, 11));
}

function drawChart(way, all, most) {
  const rows = all.filter(r => r.transfer.direction === way && !r.transfer.waiting);
  byId(way).hidden = rows.length === 0;
  if (rows.length === 0) return;
  const chart = byId(way + "-chart"), list = byId(way + "-limits"), groups = byLimit(rows);
  const gap = Math.min(14, Math.floor(roomWide() / 4 / groups.length)), room = roomWide() - gap * groups.length;
  const width = Math.max(8, Math.min(46, Math.floor(room / rows.length) - 4));
  const top = roundTop(Math.max(1, ...rows.map(r => Math.max(r.rate, r.transfer.guaranteed ?? 0))));
  const y = rate => BASE - (BASE - 14) * rate / top;
  const wide = Math.max(roomWide(), gap * groups.length + (width + 4) * rows.length);
  setSize(chart, wide, BASE + ROOM);
  list.replaceChildren();
  for (const rate of [0, top]) draw(chart, "line", { x1: 0, x2: wide, y1: y(rate), y2: y(rate), class: "base" });
  draw(chart, "text", { x: 0, y: 11, class: "scale" }, rateText(top));
  let x = gap / 2;
  for (const group of groups) {
    const from = x, level = levelOf(group);
    for (const row of group.held) { drawColumn(chart, row, group.style, x, width, y); x += width + 4; }
    if (level !== null) draw(chart, "line", { x1: from - 4, x2: x, y1: y(level), y2: y(level), class: "level" });
    nameLimit(list, group, level, most);
    x += gap;
  }
}

// An item of a list of colours.
function addMark(list, style, text) {
  const item = put(list, "li");
  put(item, "span", undefined, "mark " + style);
  item.append(text);
  return item;
}

// A limit with its colour, how many it holds back, and what it leaves to each, or at most.
function nameLimit(list, { limit, kind, held, style }, level, most) {
  const promised = held.filter(r => r.transfer.guaranteed !== null).length, rest = held.length - promised;
  const parts = [];
  if (kind === "nothing") parts.push(held.length === 1 ? "asks for no more" : held.length + " ask for no more");
  else {
    if (rest > 0) parts.push(rest === 1 ? rateText(level) : `${rest} transfers, ${most ? "up to " : ""}${rateText(level)} each`);
    if (promised > 0) parts.push(promised + " with a guarantee");
  }
  addMark(list, style, `${ownerName(kind, held[0].transfer, LONGEST)}: ${parts.join(", ")}`).title = limit;
}

function addRow(body, row, style) {
  const { transfer, limit, kind, part, rate, own, lacks } = row, line = put(body, "tr");
  const user = put(line, "th", transfer.user);
  user.scope = "row";
  user.title = transfer.user;
  put(line, "td", whole(rate), "number");
  const why = put(line, "td", undefined, "held");
  why.title = transfer.waiting ? "" : limit;
  if (!transfer.waiting) put(why, "span", undefined, "mark " + style);
  const held = limitName(kind, transfer, 12);
  why.append(transfer.waiting ? "waits for a lane" : part > 0 ? `${held} ${percent(part)}` : held);
  put(line, "td", transfer.guaranteed === null ? "-" : whole(transfer.guaranteed), lacks ? "number bad" : "number");
  put(line, "td", own === null ? "-" : whole(own), "number more");
  put(line, "td", transfer.size ? percent(Math.min(1, transfer.moved / transfer.size)) : "-", "number more");
  const path = transfer.path ?? "a listing";
  put(line, "td", path.split("/").pop() || path, "more").title = path;
  for (const text of [transfer.direction, transfer.group ?? "-", "#" + transfer.session, transfer.peer])
    put(line, "td", text, "more").title = text;
}

// Fills the table: who waits comes first, and then as the columns are.
function fillTransfers(rows) {
  const body = byId("transfers");
  body.replaceChildren();
  for (const waiting of [true, false])
    for (const row of rows.filter(r => r.transfer.waiting === waiting)) addRow(body, row, styleOf(row.limit, rows));
}

// The octets a second that are guaranteed to a session, both ways.
const guaranteedTo = s => (s.guaranteed_down ?? 0) + (s.guaranteed_up ?? 0);

// The sessions that transfer nothing: who is guaranteed most first, and then who is idle longest.
function idleOf(status) {
  return status.sessions_now.filter(s => s.active < status.micros)
    .sort((a, b) => guaranteedTo(b) - guaranteedTo(a) || a.active - b.active || a.session - b.session);
}

// Fills their table: all that are guaranteed something, and others up to a dozen in all.
function fillIdle(status) {
  const body = byId("idle"), idle = idleOf(status), since = micros => timeText((status.micros - micros) / 1e6);
  const shown = Math.max(MOST_IDLE, idle.filter(s => guaranteedTo(s) > 0).length);
  const more = idle.length > shown ? `, ${shown} of them shown` : "";
  byId("inside").hidden = idle.length === 0;
  byId("idle-number").textContent = `${idle.length} of ${status.sessions}${more}`;
  body.replaceChildren();
  for (const it of idle.slice(0, shown)) {
    const { user, group, peer, session, begun, active } = it, line = put(body, "tr");
    const name = put(line, "th", user ?? "not logged in", user === null ? "faint" : undefined);
    const least = WAYS.filter(way => it["guaranteed_" + way] !== null).map(way => `${whole(it["guaranteed_" + way])} ${way}`);
    name.scope = "row";
    name.title = user ?? "";
    for (const text of [since(active), since(begun)]) put(line, "td", text, "number");
    put(line, "td", least.join(", ") || "-", "number held");
    for (const text of [group ?? "-", "#" + session, peer]) put(line, "td", text, "more").title = text;
  }
}

// Keeps for ten minutes what each user got, what all got together, and which limits held somebody back.
function remember(status, old, rows) {
  const had = new Map(old.accounts.map(it => [it.user, it.granted_down + it.granted_up])), time = (status.micros - old.micros) / 1e6;
  const users = new Map(status.accounts.map(it => [it.user, Math.max(0, it.granted_down + it.granted_up - (had.get(it.user) ?? 0))]));
  const all = Math.max(status.issued - old.issued, sum([...users.values()]));
  past = past.filter(it => status.micros - it.to < KEPT_MICROS);
  past.push({ from: old.micros, to: status.micros, time, users, all, limits: limitsOf(rows) });
}

// The limits that hold somebody back.
function limitsOf(rows) {
  return [...new Set(rows.filter(r => r.kind !== "nothing" && !r.transfer.waiting).map(r => r.limit))];
}

// The six users who got most in the past, with what they got, and all others together.
function pastUsers() {
  const totals = new Map();
  for (const { users } of past) for (const [user, got] of users) totals.set(user, (totals.get(user) ?? 0) + got);
  const first = [...totals].filter(it => it[1] > 0).sort((a, b) => b[1] - a[1]).slice(0, 6), rest = sum(past.map(it => it.all)) - sum(first.map(it => it[1]));
  giveColours(userColours, first.map(it => it[0]));
  const areas = first.map(([user, got]) => ({ user, got, style: userColours.get(user), of: it => it.users.get(user) ?? 0 }));
  if (rest > 0) areas.push({ user: "others", got: rest, style: "nothing", of: it => it.all - sum(first.map(([user]) => it.users.get(user) ?? 0)) });
  return areas;
}

// The past as areas, one on another.
function drawPast(status) {
  const chart = byId("past"), list = byId("past-users"), areas = pastUsers(), wide = roomWide();
  byId("history").hidden = areas.length === 0;
  setSize(chart, wide, 108);
  list.replaceChildren();
  const most = Math.max(1, ...past.map(it => it.all / it.time));
  byId("past-most").textContent = "up to " + rateText(most);
  const x = micros => (wide * Math.max(0, 1 - (status.micros - micros) / KEPT_MICROS)).toFixed(1), y = rate => (88 - 84 * rate / most).toFixed(1);
  const edge = levels => past.flatMap((it, i) => [x(it.from) + "," + y(levels[i]), x(it.to) + "," + y(levels[i])]);
  let below = past.map(() => 0);
  for (const { user, got, style, of } of areas) {
    const above = past.map((it, i) => below[i] + of(it) / it.time);
    draw(chart, "polygon", { points: [...edge(above), ...edge(below).reverse()].join(" "), class: style });
    addMark(list, style, `${cut(user, LONGEST)} ${amountText(got)}`).title = user;
    below = above;
  }
  draw(chart, "line", { x1: 0, x2: wide, y1: 88, y2: 88, class: "base" });
  for (const [place, anchor, text] of [[0, "start", "10 minutes ago"], [wide / 2, "middle", "5"], [wide, "end", "now"]])
    draw(chart, "text", { x: place, y: 102, "text-anchor": anchor, class: "scale" }, text);
}

function show(status, old) {
  const rows = measuredAll(status, old);
  const waiting = rows.filter(r => r.transfer.waiting).length, minutes = Math.floor(status.micros / 6e7);
  byId("summary").textContent = `up ${Math.floor(minutes / 60)} h ${minutes % 60} min, `
    + `${status.sessions} of ${status.max_sessions} sessions, ${idleOf(status).length} idle, ${rows.length - waiting} of ${status.lanes} transfers, ${waiting} waiting, `
    + `${whole(status.ended)} ended, ${whole(status.failed_logins)} wrong passwords, ${whole(status.refused)} refused`;
  if (old !== null) remember(status, old, rows);
  else [past, unmet] = [[], new Map()];
  keepUnmet(rows);
  giveColours(limitColours, [...new Set([limitsOf(rows), ...past.map(it => it.limits)].flat())]);
  fillLines(status, old, rows);
  fillAlarms(status, rows);
  for (const way of WAYS) drawChart(way, rows, isByUsers(status));
  drawPast(status);
  fillTransfers(rows);
  fillIdle(status);
  byId("none").hidden = rows.length > 0;
  byId("key").hidden = rows.length === waiting;
}

function setLost(text) {
  byId("lost").textContent = text;
  byId("lost").hidden = text === "";
  document.body.classList.toggle("stale", text !== "");
}

async function ask() {
  try {
    const reply = await fetch("status.json", { cache: "no-store", signal: AbortSignal.timeout(4000) });
    if (!reply.ok) throw new Error("status " + reply.status);
    const status = await reply.json();
    const isRestart = last !== null && last.started !== status.started;
    if (last === null || isRestart || status.micros !== last.micros) {
      show(status, last !== null && !isRestart && last.micros < status.micros ? last : null);
      last = status;
    }
    answered = new Date();
    setLost("");
  } catch (error) {
    const since = answered === null ? "" : " since " + answered.toLocaleTimeString();
    setLost(`The server does not answer${since} (${error.message}). This page goes on asking.`);
  }
}

async function run() {
  if (!paused) await ask();
  setTimeout(run, 1000);
}

byId("pause").addEventListener("click", () => {
  paused = !paused;
  byId("pause").textContent = paused ? "Go on" : "Pause";
});
run();
</script>
</body>
</html>
"##;

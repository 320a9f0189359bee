//! What a page of a schedule does: it keeps what its data said last, and shows it. It knows no protocol.

/// What stands behind the data.
pub const SCHEDULE_END: &str = r##"</pre>
<script>
"use strict";
const byId = id => document.getElementById(id);
const optional = (label, value) => value === undefined ? "" : label + value;

// The data: the machine's size; then each event, and behind it its line of the sharing lists, if it has one.
const [size, ...rows] = byId("data").textContent.trimEnd().split("\n");
const [nodes, lines, slots] = size.split(" ").slice(1).map(Number);
const events = [];
for (const row of rows) {
  if (row.startsWith("{")) events.push(JSON.parse(row));
  else events[events.length - 1].list = row;
}

// ---- words, as those of a trace

const operationWords = o => `${o.operation} ${o.line} ${o.word}` + optional(" ", o.arg) + optional(" ", o.datum);
const packetName = p => p.command + ("id" in p ? ` id ${p.id ?? "none"}` : "");
const packetWords = p => `${p.command} to ${p.to} from ${p.from} control ${p.control} line ${p.line}`
  + ("id" in p ? ` id ${p.id ?? "none"}` : "") + (p.words ? ` @${p.version} ${p.words.join(" ")}` : "");
const cacheWords = s => s.state + optional(" forward ", s.forward) + optional(" backward ", s.backward)
  + (s.sent ? " sent" : "") + optional(" @", s.version);
const homeWords = s => s.state + optional(" head ", s.head) + optional(" @", s.version);
const entryWords = e => `${e.node} ${e.serial} ${operationWords(e)} = ${e.reply ?? "-"} @${e.version}`;
const eventParts = {
  issue: e => `${e.node} ${operationWords(e)}`,
  perform: e => `${e.node} ${e.line}`,
  ask: e => `${e.node} ${e.line} ${e.request}`,
  serve: e => `${e.from} ${e.node}`,
  refuse: e => `${e.from} ${e.node}`,
  reply: e => `${e.node}`,
  accept: e => `${e.from} ${e.node}`,
};
const eventWords = e => `${e.event} ${eventParts[e.event](e)}`;
const stateOf = e => `line ${e.line} of node ${e.node} is ${e.cache_before ? cacheWords(e.cache_before) : ""}`;
const obstacleWords = {
  "no-such-node": () => "the machine has no such node",
  "no-such-sender": () => "the machine has no such sender",
  "no-such-line": () => "the machine has no such line",
  "no-such-word": () => "a line has no such word",
  "already-pending": e => `node ${e.node} has an operation pending on line ${e.line}`,
  "no-issue-left": e => `node ${e.node} has issued all that it may`,
  "nothing-pending": e => `node ${e.node} has no operation pending on line ${e.line}`,
  "not-allowed": e => `${stateOf(e)}, which doesn't allow the operation that is pending`,
  "not-asked": e => `${stateOf(e)}, which doesn't ask ${e.request}`,
  "no-slot": e => `${stateOf(e)}, and the node has no free slot`,
  "nothing-under-way": e => `no ${e.event === "accept" ? "answer" : "request"} from ${e.from} to ${e.node} is under way`,
  "answer-waits": e => `node ${e.node} has an answer waiting: reply ${e.node} first`,
  "setback-comes": () => "a setback can't be refused",
  "no-answer-waits": e => `node ${e.node} has no answer waiting`,
};
const lineOf = e => e.line ?? (e.sent ?? e.taken)?.line;

// What an event did: one line of words after another.
function told(e) {
  const words = [`${e.number}: ${eventWords(e)}`];
  const changed = (label, before, after, inWords) => {
    if (before && after && inWords(before) !== inWords(after)) words.push(`${label}: ${inWords(before)} -> ${inWords(after)}`);
  };
  if (!e.enabled) words.push(`not enabled: ${(obstacleWords[e.obstacle] ?? (() => e.obstacle))(e)}`);
  if (e.sent) words.push(`sent ${packetWords(e.sent)}`);
  if (e.taken) words.push(`took ${packetWords(e.taken)}`);
  changed(`cache of ${e.node}, line ${lineOf(e)}`, e.cache_before, e.cache_after, cacheWords);
  changed(`home of line ${lineOf(e)}`, e.home_before, e.home_after, homeWords);
  if (e.entry) words.push(`logged ${entryWords(e.entry)}`);
  return words.join("\n  ");
}

// ---- what goes together: a packet's transaction from ask to accept, and an operation's from issue to perform

const place = (node, line) => `${node} ${line}`;
const asksFor = e => ["ask", "serve", "refuse"].includes(e.event);
function join(open, at, index, ends) {
  if (!open.has(at)) open.set(at, []);
  const group = open.get(at);
  group.push(index);
  if (ends) open.delete(at);
  return group;
}
const asking = new Map(), performing = new Map();
events.forEach((e, index) => {
  const packet = e.sent ?? e.taken;
  if (!e.enabled) return;
  if (packet) {
    const at = place(asksFor(e) ? packet.from : packet.to, packet.line);
    if (e.event === "ask") asking.delete(at);
    e.group = join(asking, at, index, e.event === "accept");
    if (performing.has(at)) performing.get(at).push(index);
  } else {
    e.group = join(performing, place(e.node, e.line), index, e.event === "perform");
  }
});

// ---- the state behind each event: what was said last

const same = (a, b) => a.to === b.to && a.from === b.from && a.command === b.command && a.line === b.line && a.control === b.control;
class State {
  constructor(old) {
    for (const part of ["caches", "homes", "lists", "pending"]) this[part] = new Map(old?.[part]);
    this.sent = [...(old?.sent ?? [])];
    this.logged = old?.logged ?? 0;
    this.line = old?.line ?? 0;
  }
  take(packet) {
    const found = this.sent.findIndex(it => same(it.packet, packet));
    if (found >= 0) this.sent.splice(found, 1);
    return found >= 0;
  }
  add(e) {
    const line = lineOf(e);
    this.line = line ?? this.line;
    if (!e.enabled) return;
    if (e.taken) this.take(e.taken);
    if (e.sent) this.sent.push({ packet: e.sent, event: e });
    if (e.cache_after) this.caches.set(place(e.node, line), e.cache_after);
    if (e.home_after) this.homes.set(line, e.home_after);
    if (e.list) this.lists.set(line, e.list);
    if (e.event === "issue") this.pending.set(place(e.node, line), e);
    if (e.event === "perform") this.pending.delete(place(e.node, line));
    if (e.entry) this.logged += 1;
  }
}

// The state before the first event, as far as an event says what it was.
function beginning() {
  const state = new State(), sent = new State(), issued = new Set();
  for (const e of events) {
    const line = lineOf(e), at = place(e.node, line);
    if (e.cache_before && !state.caches.has(at)) state.caches.set(at, e.cache_before);
    if (e.home_before && !state.homes.has(line)) state.homes.set(line, e.home_before);
    if (!e.enabled) continue;
    if (e.taken && !sent.take(e.taken)) state.sent.push({ packet: e.taken, event: e });
    if (e.sent) sent.sent.push({ packet: e.sent, event: e });
    if (e.event === "issue") issued.add(at);
    if (e.event === "perform" && !issued.delete(at)) state.pending.set(at, { ...e.entry, group: e.group });
  }
  state.line = events.length ? lineOf(events[0]) ?? 0 : 0;
  return state;
}
const EVERY = 100;
const kept = [beginning()];
const log = [];
{
  const state = new State(kept[0]);
  events.forEach((e, index) => {
    state.add(e);
    if (e.entry) log.push(e);
    if ((index + 1) % EVERY === 0) kept.push(new State(state));
  });
}
function after(count) {
  const state = new State(kept[Math.floor(count / EVERY)]);
  for (let index = count - count % EVERY; index < count; index++) state.add(events[index]);
  return state;
}

// ---- letters and colours of the states

const names = [...new Set(events.flatMap(e => [e.cache_before, e.cache_after]).filter(Boolean).map(s => s.state))];
const initials = name => name.replace(/[a-z]/g, "");
function letters(name) {
  const others = names.filter(it => it !== name);
  if (!others.some(it => initials(it) === initials(name))) return initials(name);
  let count = 1;
  while (others.some(it => it.startsWith(name.slice(0, count)))) count += 1;
  return name.slice(0, count);
}
const shortNames = new Map(names.map(name => [name, letters(name)]));
const bare = s => s === undefined || Object.keys(s).length === 1;
const colour = s => bare(s) ? "var(--soft)" : `hsl(${names.indexOf(s.state) * 67 % 360} 65% var(--tone))`;

// ---- the picture of a line

const shown = [];
const text = (x, y, words, look = "") => `<text class="${look}" x="${x}" y="${y}">${words}</text>`;
const arrow = (d, look) => `<path class="${look}" d="${d}" marker-end="url(#tip)"/>`;
function columns() {
  const visible = [...Array(nodes).keys()].filter(n => shown[n].checked);
  const room = byId("picture").clientWidth, gap = room < 180 * visible.length ? 16 : 40;
  const wide = Math.max(106, Math.min(150, Math.floor((room - gap) / visible.length) - gap));
  const middle = new Map(visible.map((n, index) => [n, gap + index * (wide + gap) + wide / 2]));
  return { visible, middle, wide, width: Math.max(visible.length * (wide + gap) + gap, 240) };
}
function packetDrawn(it, index, view, top, lit) {
  const { from, to } = it.packet;
  if (!view.middle.has(from) || !view.middle.has(to)) return "";
  const shift = (index % 9) * 7 - 28, y = 20 + 22 * index;
  const a = view.middle.get(from) + shift, b = view.middle.get(to) + shift + (from === to ? 34 : 0);
  const looks = `packet ${asksFor(it.event) ? "request" : "answer"}${it.event.group === lit ? " lit" : ""}`;
  return `<g class="${looks}" data-packet="${index}"><title>${packetWords(it.packet)}</title>`
    + arrow(`M${a} ${top} V${y} H${b} V${top - 3}`, "") + text((a + b) / 2, y - 3, packetName(it.packet) + optional(" @", it.packet.version)) + "</g>";
}
function nodeDrawn(n, view, top, state, line, e, lit) {
  const cache = state.caches.get(place(n, line)), x = view.middle.get(n), operation = state.pending.get(place(n, line));
  const pointers = cache ? [optional("forward ", cache.forward), optional("backward ", cache.backward)].filter(Boolean) : [];
  return `<g class="in${e?.node === n ? " here" : ""}" data-node="${n}"><rect x="${x - view.wide / 2}" y="${top}" width="${view.wide}" height="${NODE}" rx="6"/>`
    + text(x, top + 18, `node ${n}`, "name")
    + `<text class="name" x="${x}" y="${top + 38}" style="fill: ${colour(cache)}">${cache ? cache.state + optional(" @", cache.version) : "no event of it"}</text>`
    + text(x, top + 55, (view.wide < 140 ? pointers.map(it => it.replace("forward", "fwd").replace("backward", "back")) : pointers).join(", ") + (cache?.sent ? " sent" : ""), "soft")
    + (operation ? `<g class="operation${operation.group === lit ? " lit" : ""}" data-operation="${n}">${text(x, top + 73, operationWords(operation), "soft")}</g>` : "") + "</g>";
}
function pointersDrawn(view, bottom, state, line) {
  const parts = [], curve = (a, b, shift, look) => {
    const deep = bottom + 22 + 9 * Math.min(Math.abs(a - b) / 60, 6);
    parts.push(arrow(`M${a + shift} ${bottom} C${a + shift} ${deep} ${b - shift} ${deep} ${b - shift} ${bottom + 3}`, look));
  };
  for (const n of view.visible) {
    const cache = state.caches.get(place(n, line)) ?? {}, at = view.middle.get(n);
    if (view.middle.has(cache.forward)) curve(at, view.middle.get(cache.forward), 12, "forward");
    if (byId("backward").checked && view.middle.has(cache.backward)) curve(at, view.middle.get(cache.backward), -22, "backward");
  }
  return parts.join("");
}
function homeDrawn(view, bottom, state, line) {
  const home = state.homes.get(line), at = line % nodes, y = bottom + 90;
  if (!view.middle.has(at)) return "";
  const x = view.middle.get(at), parts = [`<g class="home in"><rect x="${x - view.wide / 2}" y="${y}" width="${view.wide}" height="44" rx="6"/>`
    + text(x, y + 18, `home of line ${line}`, "soft") + text(x, y + 36, home ? homeWords(home) : "no event of it", "name") + "</g>"];
  if (view.middle.has(home?.head)) parts.push(arrow(`M${x} ${y} L${view.middle.get(home.head)} ${bottom + 3}`, "head"));
  return parts.join("");
}
const NODE = 82;
function draw(state, line, e, lit) {
  const view = columns(), packets = state.sent.filter(it => it.packet.line === line), top = 34 + 22 * packets.length, bottom = top + NODE;
  byId("picture").innerHTML = `<svg width="${view.width}" height="${bottom + 144}" role="img" aria-label="nodes, sharing list and packets of line ${line}">`
    + `<defs><marker id="tip" viewBox="0 0 10 10" refX="9" refY="5" markerWidth="7" markerHeight="7" orient="auto-start-reverse"><path d="M0 0L10 5L0 10z"/></marker></defs>`
    + pointersDrawn(view, bottom, state, line) + homeDrawn(view, bottom, state, line)
    + packets.map((it, index) => packetDrawn(it, index, view, top, lit)).join("")
    + view.visible.map(n => nodeDrawn(n, view, top, state, line, e, lit)).join("") + "</svg>";
  return packets;
}

// ---- all lines

const touched = [...new Set(events.map(lineOf).filter(it => it !== undefined))].sort((a, b) => a - b);
const table = new Map();
// The table, with empty cells: it is made when the page opens, and when a node is hidden or shown.
function lay() {
  const visible = columns().visible;
  byId("overview").innerHTML = `<tr><th></th>${visible.map(n => `<th>${n}</th>`).join("")}<th>home</th></tr>`
    + touched.map(row => `<tr data-line="${row}"><th>line ${row}</th>${"<td></td>".repeat(visible.length)}<th></th></tr>`).join("");
  table.clear();
  touched.forEach((row, index) => {
    const cells = [...byId("overview").rows[index + 1].cells];
    visible.forEach((n, column) => table.set(place(n, row), { cell: cells[column + 1], words: null }));
    table.set(row, { cell: cells[visible.length + 1], words: null });
  });
}
// Fills a cell whose words changed.
function fill(at, words, text, look) {
  const it = table.get(at);
  if (!it || it.words === words) return;
  it.words = it.cell.title = words;
  it.cell.textContent = text;
  it.cell.style.color = look;
}
let marked = [];
function overview(state, line, e) {
  for (const row of touched) {
    for (let n = 0; n < nodes; n++) {
      const cache = state.caches.get(place(n, row));
      fill(place(n, row), cache ? cacheWords(cache) : "no event of it", cache ? shortNames.get(cache.state) : "", colour(cache));
    }
    const home = state.homes.has(row) ? homeWords(state.homes.get(row)) : "";
    fill(row, home, home, "");
  }
  for (const [it, look] of marked) it.classList.remove(look);
  const row = byId("overview").querySelector(`[data-line="${line}"]`), cell = e && table.get(place(e.node, lineOf(e)))?.cell;
  marked = [[row, "on"], [cell, "at"]].filter(it => it[0]);
  for (const [it, look] of marked) it.classList.add(look);
}

// ---- the list of events: those in view

const ROW = 20;
function list(count) {
  const box = byId("events"), first = Math.max(0, Math.floor(box.scrollTop / ROW) - 10);
  const last = Math.min(events.length, Math.ceil((box.scrollTop + box.clientHeight) / ROW) + 10);
  box.firstElementChild.innerHTML = events.slice(first, last).map((e, place) => {
    const index = first + place, looks = [e.enabled ? "" : "dead", lit?.includes(index) ? "lit" : ""].join(" ");
    return `<li class="${looks}" style="top: ${index * ROW}px"${index === count - 1 ? ' aria-current="true"' : ""}>`
      + `<a href="#${e.number}"><span>${e.number}</span>${eventWords(e)}</a></li>`;
  }).join("");
}
function bringInView(count) {
  const box = byId("events"), top = (count - 1) * ROW;
  if (top < box.scrollTop) box.scrollTop = top;
  else if (top + ROW > box.scrollTop + box.clientHeight) box.scrollTop = top + ROW - box.clientHeight;
}

// ---- showing the moment behind some events

let lit = null, packetsShown = [], lineShown = 0, playing = 0;
const LOG = 200;
function light(group) {
  lit = group === lit ? null : group;
  byId("transaction").hidden = !lit;
  byId("marked").textContent = (lit ?? []).map(index => `${events[index].number}: ${eventWords(events[index])}`).join("\n");
  show();
}
function logWords(count) {
  const some = log.slice(Math.max(0, count - LOG), count).reverse().map(e => `${e.number}: ${entryWords(e.entry)}`);
  return (count > LOG ? [...some, `${count - LOG} entries before`] : some).join("\n") || "nothing";
}
function show() {
  const count = +byId("at").value, state = after(count), e = count ? events[count - 1] : null;
  const line = byId("line").value === "" ? state.line : +byId("line").value;
  byId("where").value = `${count} of ${events.length}`;
  byId("what").textContent = e ? told(e) : "before the first event";
  byId("log").textContent = logWords(state.logged);
  byId("list").textContent = state.lists.get(line) ?? `line ${line}: no event so far says its list`;
  packetsShown = draw(state, line, e, lit);
  lineShown = line;
  byId("under").textContent = packetsShown.map(it => packetWords(it.packet)).join("\n") || "nothing";
  overview(state, line, e);
  bringInView(count);
  list(count);
}
function go(count) {
  byId("at").value = count;
  const at = +byId("at").value;
  history.replaceState(null, "", at ? `#${events[at - 1].number}` : "#");
  show();
}
// The events up to a line of the schedule.
const upTo = number => events.findLastIndex(e => e.number <= number) + 1;
const step = by => go(+byId("at").value + by);
function play() {
  clearInterval(playing);
  playing = playing || +byId("at").value === events.length ? 0 : setInterval(() => {
    step(1);
    if (+byId("at").value === events.length) play();
  }, 400);
  byId("play").textContent = playing ? "stop" : "play";
}

// ---- the parts of the page, and what is done with them

byId("title").textContent = document.title;
const counted = (count, word) => `${count} ${word}${count === 1 ? "" : "s"}`;
byId("size").textContent = [[nodes, "node"], [lines, "line"], [slots, "slot"], [events.length, "event"]].map(it => counted(...it)).join(", ");
byId("letters").textContent = names.map(name => `${shortNames.get(name)} ${name}`).join(", ");
for (const line of touched) byId("line").add(new Option(line, line));
for (let n = 0; n < nodes; n++) {
  const label = document.createElement("label"), box = document.createElement("input");
  box.type = "checkbox";
  box.checked = true;
  box.onchange = () => { lay(); show(); };
  label.append(box, ` ${n}`);
  byId("nodes").append(label);
  shown.push(box);
}
byId("nodes").prepend("nodes");
lay();
byId("events").firstElementChild.style.height = `${events.length * ROW}px`;
byId("events").onscroll = () => list(+byId("at").value);
byId("at").max = events.length;
byId("at").oninput = () => go(+byId("at").value);
byId("line").onchange = byId("backward").onchange = show;
byId("first").onclick = () => go(0);
byId("back").onclick = () => step(-1);
byId("play").onclick = play;
byId("on").onclick = () => step(1);
byId("end").onclick = () => go(events.length);
byId("picture").onclick = click => {
  const packet = click.target.closest("[data-packet]"), operation = click.target.closest("[data-operation]");
  if (packet) light(packetsShown[packet.dataset.packet].event.group);
  else if (operation) light(after(+byId("at").value).pending.get(place(operation.dataset.operation, lineShown)).group);
  else if (lit) light(null);
};
byId("overview").onclick = click => {
  const row = click.target.closest("[data-line]");
  if (!row) return;
  byId("line").value = row.dataset.line;
  show();
};
addEventListener("keydown", key => {
  const done = { ArrowRight: () => step(1), ArrowLeft: () => step(-1), Home: () => go(0), End: () => go(events.length), " ": play }[key.key];
  if (!done || key.target.tagName === "SELECT" || key.ctrlKey || key.altKey || key.metaKey) return;
  done();
  key.preventDefault();
});
addEventListener("resize", show);
addEventListener("hashchange", () => go(upTo(+location.hash.slice(1))));
go(upTo(+location.hash.slice(1)));
</script>
</body>
</html>
"##;

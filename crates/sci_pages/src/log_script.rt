//! What a page of a log does: it draws the entries, and what its data say of them. It knows no rule by which a log is judged.

/// What stands behind the data.
pub const LOG_END: &str = r##"</pre>
<script>
"use strict";
const byId = id => document.getElementById(id);

// The data: the lines of the log, and then what each command writes of it, behind a line with its words.
const said = { log: [] };
{
  let part = said.log;
  for (const row of byId("data").textContent.trimEnd().split("\n")) {
    if (row.startsWith("sciview ")) part = said[row] = [];
    else part.push(row);
  }
}

// ---- the log

const NOWHERE = { line: 0 };
const entries = [], lasts = [], onLine = new Map();
let size = null;
said.log.forEach((row, index) => {
  const line = index + 1, words = row.split(" ");
  if (words[0] === "log") {
    size = words.slice(2).map(Number);
    return;
  }
  const last = words[0] === "last";
  const it = { line, row, node: last ? null : +words[0], memory: +words[last ? 1 : 3], version: words[last ? 2 : words.length - 1] };
  (last ? lasts : entries).push(it);
  onLine.set(line, it);
});
const nodes = [...new Set(entries.map(it => it.node))].sort((a, b) => a - b);
const logOf = node => entries.filter(it => it.node === node);

// Entries that show one version of one line of memory have one colour. The first contents have none.
const versionOf = it => `line ${it.memory} ${it.version}`;
const versions = [...new Set(entries.filter(it => it.version !== "@0").map(versionOf))];
function fill(it) {
  const at = versions.indexOf(versionOf(it));
  return at < 0 ? "" : `fill: hsl(${at * 137 % 360} 65% var(--tint))`;
}

// ---- what is said of it: in the order of each log, and in that of the program; or else its faults

const LINE = /^(?: {2}> | {4}| {2})?line (\d+): /;
const lineIn = row => +(LINE.exec(row)?.[1] ?? 0);
// Each entry of a cycle comes after the next one, and the last after the first.
function cycleOf(rows) {
  const steps = rows.map(row => ({ line: lineIn(row), why: row.split(" comes after the next: ")[1] })).filter(it => it.why);
  return steps.map((it, index) => ({ to: it.line, from: steps[(index + 1) % steps.length].line, why: it.why, look: "cycle" }));
}
// The entries of an order, by their words. Equal ones stand as in the log.
function orderOf(rows) {
  const left = new Map();
  for (const it of entries) {
    if (!left.has(it.row)) left.set(it.row, []);
    left.get(it.row).push(it);
  }
  return rows.map(row => left.get(row).shift());
}
function ordered(name, command) {
  const [verdict, ...rows] = said[command], edges = cycleOf(rows);
  const good = !verdict.startsWith("not ");
  return { name, command, verdict, good, rows: good ? [verdict] : [verdict, ...rows], edges, bad: new Set(), order: good ? orderOf(rows) : null };
}
// The entries of a line of memory with a fault stand one after another in the order of their versions.
function faulty() {
  const rows = said["sciview explain"], edges = [], bad = new Set();
  let before = 0;
  for (const row of rows) {
    const line = lineIn(row), around = /^ {4}line| {2}> /.test(row);
    if (line && row.startsWith("  line")) bad.add(line);
    if (around && before) edges.push({ from: before, to: line, why: "next in the order of versions", look: "versions" });
    before = around ? line : 0;
  }
  const verdict = rows.filter(row => /^fault|^ {2}line/.test(row)).join("\n");
  return { name: "faults", command: "sciview explain", verdict, good: false, rows, edges, bad, order: null };
}
const lawful = said["sciview explain"][0] === "lawful";
const views = lawful ? [ordered("log order", "sciview order --show"), ordered("program order", "sciview order --by-serial --show")] : [faulty()];
const kept = view => new Set([...view.bad, ...view.edges.flatMap(it => [it.from, it.to])]);

// ---- where entries stand: in the rows of an order, or else each below the one before it in its log

const NEAR = 2, opened = new Set();
// Entries far from those that are kept are one item, until it is opened.
function folded(list, keep) {
  const near = new Set();
  list.forEach((it, index) => {
    if (keep.has(it.line)) for (const other of list.slice(Math.max(0, index - NEAR), index + NEAR + 1)) near.add(other);
  });
  const items = [];
  for (const it of list) {
    if (near.has(it) || opened.has(it.line)) items.push([it]);
    else if (items.length && items.at(-1).folds) items.at(-1).push(it);
    else items.push(Object.assign([it], { folds: true }));
  }
  return items;
}
function laid(view) {
  if (view.order) return view.order.map((it, row) => ({ entries: [it], node: it.node, row }));
  return nodes.flatMap(node => folded(logOf(node), kept(view)).map((items, row) => ({ entries: items, node, row })));
}

// ---- the picture

const text = (x, y, words, look = "") => `<text class="${look}" x="${x}" y="${y}">${words}</text>`;
const BOX = 28, TOP = 34, LETTER = 7.3;
let places = new Map(), items = [], plan = null, view = views.find(it => !it.good) ?? views[0], selected = NOWHERE;
const isBeside = (a, b) => a.node === b.node && Math.abs(a.row - b.row) !== 1;
function planned() {
  items = laid(view);
  places = new Map();
  for (const it of items) for (const entry of it.entries) places.set(entry.line, it);
  const room = byId("picture").clientWidth, one = items.filter(it => it.entries.length === 1).map(it => it.entries[0]);
  const longest = one.reduce((most, it) => Math.max(most, it.row.length), 12), number = Math.ceil(`${said.log.length}`.length * LETTER) + 16;
  const wide = Math.ceil(Math.min(longest, 60) * LETTER) + number + 8, high = view.order ? 34 : 62;
  const beside = view.edges.some(it => places.has(it.from) && places.has(it.to) && isBeside(places.get(it.from), places.get(it.to)));
  const left = beside ? 116 : 8, gap = Math.max(76, Math.min(150, Math.floor((room - left - 8 - nodes.length * wide) / Math.max(1, nodes.length - 1))));
  const at = new Map(nodes.map((node, index) => [node, left + index * (wide + gap)]));
  for (const it of items) Object.assign(it, { x: at.get(it.node), y: TOP + it.row * high, column: nodes.indexOf(it.node) });
  const bottom = items.reduce((most, it) => Math.max(most, it.y), TOP) + BOX + (view.edges.length ? 30 : 8);
  const width = Math.max(60, left + nodes.length * (wide + gap) - gap + 8);
  return { at, wide, high, gap, number, width, height: bottom, scale: Math.max(.75, Math.min(1, room / width)) };
}
function looksOf(it) {
  const looks = ["entry in"];
  if (view.bad.has(it.line)) looks.push("bad");
  if (it.line === selected.line) looks.push("on");
  if (versionOf(it) === versionOf(selected)) looks.push("same");
  return looks.join(" ");
}
function itemDrawn(it) {
  const { wide } = plan, [entry] = it.entries, box = look => `<rect x="${it.x}" y="${it.y}" width="${wide}" height="${BOX}" rx="5" style="${look}"/>`;
  if (it.entries.length > 1) {
    return `<g class="fold in" data-fold="${entry.line}">${box("")}${text(it.x + wide / 2, it.y + 19, `${it.entries.length} entries`, "soft")}</g>`;
  }
  return `<g class="${looksOf(entry)}" data-line="${entry.line}"><title>line ${entry.line}: ${entry.row}</title>${box(fill(entry))}`
    + text(it.x + 8, it.y + 18, entry.line, "soft") + text(it.x + plan.number, it.y + 18, entry.row) + "</g>";
}
// The line of an edge, and where words can stand beside it. Edges between columns that others stand between go side by side.
const LANES = [0, -8, 8, -4, 4];
function course(a, b, lane) {
  const { wide, high } = plan, middle = BOX / 2;
  if (a.x === b.x && Math.abs(a.row - b.row) === 1) {
    const down = b.row > a.row, x = a.x + 22, from = down ? a.y + BOX : a.y, to = down ? b.y - 3 : b.y + BOX + 3;
    return { path: `M${x} ${from} V${to}`, words: [[x + 8, (from + to) / 2 + 4, "start"]] };
  }
  if (a.x === b.x) {
    const x = a.x - 3, out = a.x - 30 - Math.min(20, Math.abs(a.row - b.row) * 3), up = a.y + middle + 5, end = b.y + middle - 5;
    return { path: `M${x} ${up} C${out} ${up} ${out} ${end} ${x} ${end}`, words: [.5, .35, .65].map(t => [out + 8, up + (end - up) * t, "end"]) };
  }
  const right = b.x > a.x, x = right ? a.x + wide : a.x, end = right ? b.x - 3 : b.x + wide + 3, y = a.y + middle + 5, to = b.y + middle - 5;
  if (Math.abs(a.column - b.column) > 1) return around(x, y, end, to, Math.min(a.y, b.y) + BOX + (high - BOX) / 2 + LANES[lane % LANES.length]);
  const half = (x + end) / 2, words = [.62, .35, .5, .78, .22].map(t => [x + (end - x) * t, y + (to - y) * (3 * t * t - 2 * t * t * t) + 4, "middle"]);
  return { path: `M${x} ${y} C${half} ${y} ${half} ${to} ${end} ${to}`, words };
}
// Between columns that others stand between: through the room below a row.
function around(x, y, end, to, low) {
  const step = Math.sign(end - x) * Math.min(60, plan.gap - 10), bend = step / 2;
  const path = `M${x} ${y} C${x + bend} ${y} ${x + bend} ${low} ${x + step} ${low} H${end - step} C${end - bend} ${low} ${end - bend} ${to} ${end} ${to}`;
  return { path, words: [.5, .4, .6, .3, .7, .2, .8, .12, .88].map(t => [x + (end - x) * t, low + 4, "middle"]) };
}
// The first place at which words overlap no others.
function room(words, spots, taken) {
  const boxes = spots.map(([x, y, anchor]) => {
    const long = words.length * 6.4, from = anchor === "start" ? x : anchor === "end" ? x - long : x - long / 2;
    return { x, y, anchor, from, to: from + long };
  });
  const free = boxes.find(it => !taken.some(other => it.from < other.to && other.from < it.to && Math.abs(it.y - other.y) < 14)) ?? boxes[0];
  taken.push(free);
  return free;
}
function edgesDrawn() {
  const taken = [], edges = view.edges.filter(it => places.has(it.from) && places.has(it.to));
  let lane = 0;
  const drawn = edges.map(it => {
    const a = places.get(it.from), b = places.get(it.to), far = Math.abs(a.column - b.column) > 1;
    return { ...it, ...course(a, b, far ? lane++ : 0) };
  });
  // Words that can stand in few places come first.
  for (const it of [...drawn].sort((a, b) => a.words.length - b.words.length)) it.spot = it.look === "cycle" ? room(it.why, it.words, taken) : null;
  return drawn.map(it => `<g class="edge ${it.look}" data-from="${it.from}" data-to="${it.to}"><title>line ${it.to} comes after line ${it.from}: ${it.why}</title>`
    + `<path d="${it.path}" marker-end="url(#tip)"/>`
    + (it.spot ? `<text x="${it.spot.x}" y="${it.spot.y}" style="text-anchor: ${it.spot.anchor}">${it.why}</text>` : "") + "</g>").join("");
}
// Draws the items in view.
function draw() {
  const box = byId("picture").getBoundingClientRect(), far = 600, from = -box.top - far, to = innerHeight - box.top + far;
  byId("items").innerHTML = items.filter(it => it.y * plan.scale > from && it.y * plan.scale < to).map(itemDrawn).join("");
}
function lay() {
  plan = planned();
  const heads = nodes.map(node => text(plan.at.get(node) + plan.wide / 2, 20, `node ${node}`, "name")).join("");
  byId("picture").innerHTML = `<svg width="${plan.width * plan.scale}" height="${plan.height * plan.scale}" viewBox="0 0 ${plan.width} ${plan.height}" role="img" aria-label="the entries of the log, by their nodes">`
    + `<defs><marker id="tip" viewBox="0 0 10 10" refX="9" refY="5" markerWidth="7" markerHeight="7" orient="auto-start-reverse"><path d="M0 0L10 5L0 10z"/></marker></defs>`
    + `${heads}<g id="items"></g>${edgesDrawn()}</svg>`;
  draw();
}

// ---- the words

function linked(id, rows) {
  byId(id).replaceChildren(...rows.map(({ line, words }) => {
    const row = document.createElement(line ? "a" : "div");
    row.textContent = words;
    if (line) row.href = `#${line}`;
    row.className = line && line === selected.line ? "on" : "";
    return row;
  }));
}
const MOST = 200;
function tell() {
  linked("words", view.rows.map(words => ({ line: lineIn(words), words })));
  byId("what").textContent = selected.line ? `line ${selected.line}: ${selected.row}` : "click on one";
  const same = selected.line ? [...lasts, ...entries].filter(it => versionOf(it) === versionOf(selected)) : [];
  linked("version", same.slice(0, MOST).map(it => ({ line: it.line, words: `line ${it.line}: ${it.row}` })));
}
function lastTable() {
  byId("last").innerHTML = lasts.map(it => `<tr data-line="${it.line}" class="${view.bad.has(it.line) ? "bad" : ""}"><td>${it.line}</td>`
    + `<td style="${fill(it).replace("fill:", "background:")}">${it.row}</td></tr>`).join("");
}
const notes = {
  cycle: "An arrow goes from an entry to one that has to come after it. Since they go in a circle, no order keeps them all.",
  order: "Each row has one entry, in an order that keeps the order of each node's entries and that one memory explains.",
  fault: "Red: what the verdict names. Dotted arrows go through the entries of a faulty line of memory in the order of their versions.",
};
function show(next) {
  view = next;
  byId("verdict").textContent = view.verdict;
  byId("verdict").className = view.good ? "good" : "bad";
  byId("heading").textContent = view.command;
  byId("note").textContent = `${notes[view.order ? "order" : lawful ? "cycle" : "fault"]} Entries of one colour show one version of a line of memory; those without are at version 0. `
    + "The number before an entry is its line of the log.";
  lastTable();
  lay();
  tell();
}
function select(line) {
  selected = onLine.get(line) ?? NOWHERE;
  const place = places.get(line);
  if (place?.entries.length > 1) open(place);
  draw();
  tell();
  const box = byId("picture").getBoundingClientRect(), y = place ? box.top + places.get(line).y * plan.scale : 0;
  if (place && (y < 60 || y > innerHeight - 60)) (getComputedStyle(document.body).display === "grid" ? document.querySelector("main") : window).scrollBy(0, y - innerHeight / 2);
}
function open(item) {
  for (const it of item.entries) opened.add(it.line);
  lay();
}

// ---- the parts of the page, and what is done with them

byId("title").textContent = document.title;
const counted = (count, one, many) => `${count} ${count === 1 ? one : many}`;
byId("size").textContent = [...(size ? [counted(size[0], "node", "nodes")] : []), counted(lasts.length, "line", "lines"), counted(entries.length, "entry", "entries")].join(", ");
if (views.length > 1) {
  views.forEach((it, index) => {
    const label = document.createElement("label"), choice = document.createElement("input");
    Object.assign(choice, { type: "radio", name: "order", value: index, checked: it === view, onchange: () => show(it) });
    label.append(choice, ` ${it.name}`);
    byId("orders").append(label);
  });
}
const goTo = line => {
  history.replaceState(null, "", `#${line}`);
  select(line);
};
byId("picture").onclick = click => {
  const entry = click.target.closest("[data-line]"), fold = click.target.closest("[data-fold]");
  if (entry) goTo(+entry.dataset.line);
  else if (fold) open(places.get(+fold.dataset.fold));
};
byId("last").onclick = click => goTo(+click.target.closest("[data-line]").dataset.line);
addEventListener("keydown", key => {
  const by = { ArrowRight: 1, ArrowLeft: -1 }[key.key], lines = view.rows.map(lineIn).filter(Boolean);
  if (!by || !lines.length || key.target.tagName === "INPUT" || key.ctrlKey || key.altKey || key.metaKey) return;
  const at = lines.indexOf(selected.line), first = by > 0 ? 0 : lines.length - 1;
  goTo(lines[at < 0 ? first : (at + by + lines.length) % lines.length]);
  key.preventDefault();
});
document.querySelector("main").onscroll = draw;
addEventListener("scroll", draw);
addEventListener("resize", lay);
addEventListener("hashchange", () => select(+location.hash.slice(1)));
show(view);
select(+location.hash.slice(1));
</script>
</body>
</html>
"##;

//! The head of all pages, and the parts of a page of a schedule. What that does is in `script.rt`.

/// What stands before the title: the looks that all pages have.
pub const PAGE_HEAD: &str = r#"<!doctype html>
<html lang="en">
<head>
<meta charset="utf-8">
<meta name="viewport" content="width=device-width, initial-scale=1">
<meta http-equiv="Content-Security-Policy" content="default-src 'none'; style-src 'unsafe-inline'; script-src 'unsafe-inline'; img-src data:">
<link rel="icon" href="data:,">
<style>
:root {
  color-scheme: light dark;
  --ink: #1d2733; --soft: #5d6a77; --rule: #d5dbe1; --back: #fff; --box: #f4f6f8; --mark: #fff1b8; --lit: #d9e8ff;
  --request: #1f5fa8; --answer: #22733c; --busy: #b05a00; --dead: #b3261e; --forward: #6f42c1; --tone: 42%; --tint: 88%;
}
@media (prefers-color-scheme: dark) {
  :root {
    --ink: #e6edf3; --soft: #9aa7b4; --rule: #3a434d; --back: #0f141a; --box: #1a2129; --mark: #4d3f00; --lit: #17345c;
    --request: #6cb2ff; --answer: #5fd38d; --busy: #f0a050; --dead: #ff8b85; --forward: #c69bff; --tone: 70%; --tint: 26%;
  }
}
* { box-sizing: border-box; }
body {
  margin: 0; height: 100vh; display: grid;
  font: 14px/1.4 system-ui, sans-serif; color: var(--ink); background: var(--back);
}
header { grid-column: 1 / -1; display: flex; flex-wrap: wrap; gap: .4rem .6rem; align-items: center; padding: .5rem .8rem; border-bottom: 1px solid var(--rule); }
header h1 { font-size: 15px; margin: 0; }
header fieldset { border: 0; margin: 0; padding: 0; display: flex; flex-wrap: wrap; gap: .2rem .5rem; color: var(--soft); }
button, select { font: inherit; padding: .15rem .55rem; }
#size, .note { color: var(--soft); }
main { overflow: auto; padding: .5rem .8rem; }
aside { overflow: auto; padding: .3rem .8rem; border-left: 1px solid var(--rule); }
h2 { font-size: 13px; font-weight: 600; margin: .8rem 0 .2rem; color: var(--soft); }
pre { margin: 0; font: 13px/1.45 ui-monospace, monospace; white-space: pre-wrap; overflow-wrap: anywhere; }
svg { display: block; }
svg text { font: 13px system-ui, sans-serif; fill: var(--ink); text-anchor: middle; paint-order: stroke; stroke: var(--back); stroke-width: 3px; stroke-linejoin: round; }
svg .in text { stroke: none; }
svg .name { font-weight: 600; }
svg .soft { fill: var(--soft); font-size: 12px; }
svg rect { fill: var(--box); stroke: var(--rule); }
svg path { fill: none; stroke-width: 1.7; }
svg marker path { fill: context-stroke; stroke: none; }
@media (max-width: 60rem) {
  body { display: flex; flex-direction: column; height: auto; }
  header { position: sticky; top: 0; background: var(--back); z-index: 1; }
  aside { border: 0; }
}
@media print {
  body { display: block; height: auto; }
}
</style>
<title>"#;

/// What stands between the title and the data of a page of a schedule.
pub const SCHEDULE_PARTS: &str = r#"</title>
<style>
body { grid-template: auto minmax(0, 1fr) / minmax(15rem, 20rem) minmax(0, 1fr) minmax(18rem, 25rem); }
header input[type=range] { flex: 1 1 12rem; min-width: 8rem; }
header output { min-width: 7em; }
#events { overflow: auto; border-right: 1px solid var(--rule); font: 13px/20px ui-monospace, monospace; }
#events ol { position: relative; margin: 0; padding: 0; list-style: none; }
#events li { position: absolute; left: 0; right: 0; height: 20px; }
#events a { display: block; padding: 0 .6rem; color: inherit; text-decoration: none; white-space: nowrap; }
#events li.dead a { color: var(--soft); text-decoration: line-through; }
#events li.lit { background: var(--lit); }
#events li[aria-current] { background: var(--mark); }
#events li span { color: var(--soft); display: inline-block; min-width: 3.5em; }
svg .here rect { stroke: var(--ink); stroke-width: 2.5; }
svg .home rect { stroke-dasharray: 4 3; }
svg .forward { stroke: var(--forward); }
svg .backward { stroke: var(--soft); stroke-dasharray: 2 3; }
svg .head { stroke: var(--soft); stroke-dasharray: 6 3; }
svg .packet, svg .operation { cursor: pointer; }
svg .request path { stroke: var(--request); }
svg .request text { fill: var(--request); }
svg .answer path { stroke: var(--answer); }
svg .answer text { fill: var(--answer); }
svg .lit path { stroke-width: 3.5; }
svg .lit text { font-weight: 700; }
#overview { border-collapse: collapse; font-size: 13px; }
#overview th { font-weight: 600; color: var(--soft); padding: .1rem .5rem; text-align: left; white-space: nowrap; }
#overview td { padding: .1rem .5rem; border: 1px solid var(--rule); text-align: center; font-weight: 600; }
#overview td.at { outline: 2px solid var(--ink); outline-offset: -2px; }
#overview tr { cursor: pointer; }
#overview tr.on { background: var(--mark); }
@media (max-width: 60rem) {
  #events { order: 1; max-height: 60vh; margin-top: .8rem; border: 0; border-top: 1px solid var(--rule); }
}
@media print {
  header button, header input, header fieldset, header label, #events { display: none; }
}
</style>
</head>
<body>
<header>
<h1 id="title"></h1><span id="size"></span>
<button id="first" title="Home">|&lt;</button><button id="back" title="left arrow">&lt;</button><button id="play" title="space">play</button><button id="on" title="right arrow">&gt;</button><button id="end" title="End">&gt;|</button>
<input id="at" type="range" min="0" value="0" aria-label="event"><output id="where"></output>
<label>line <select id="line"><option value="">of the event</option></select></label>
<label><input id="backward" type="checkbox"> backward pointers</label>
<fieldset id="nodes" aria-label="nodes"></fieldset>
</header>
<nav id="events"><ol></ol></nav>
<main>
<div id="picture"></div>
<h2>All lines</h2>
<table id="overview"></table>
<p id="letters" class="note"></p>
</main>
<aside>
<h2>Event</h2><pre id="what" aria-live="polite"></pre>
<div id="transaction" hidden><h2>Marked</h2><pre id="marked"></pre></div>
<h2>Sharing list</h2><pre id="list"></pre>
<h2>Under way, oldest first</h2><pre id="under"></pre>
<h2>Log, newest first</h2><pre id="log"></pre>
</aside>
<noscript>This page needs JavaScript. Its data are the lines of sciview trace --json and sciview lists.</noscript>
<pre id="data" hidden>"#;

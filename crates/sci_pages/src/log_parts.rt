//! The parts of a page of a log. What it does is in `log_script.rt`.

/// What stands between the title and the data of a page of a log.
pub const LOG_PARTS: &str = r#"</title>
<style>
body { grid-template: auto minmax(0, 1fr) / minmax(0, 1fr) minmax(22rem, 38rem); }
#verdict { margin: .3rem 0 .6rem; font: 600 14px/1.4 ui-monospace, monospace; white-space: pre-wrap; }
#verdict.good { color: var(--answer); }
#verdict.bad { color: var(--dead); }
#picture { overflow-x: auto; }
svg .entry, svg .fold { cursor: pointer; }
svg .entry text { font: 12px ui-monospace, monospace; text-anchor: start; }
svg .entry.bad rect { stroke: var(--dead); stroke-width: 2.5; }
svg .entry.on rect { stroke: var(--ink); stroke-width: 2.5; }
svg .entry.bad.on rect { stroke: var(--dead); stroke-width: 4; }
svg .entry.same text { font-weight: 700; }
svg .fold rect { stroke-dasharray: 4 3; }
svg .edge path { stroke: var(--request); }
svg .edge text { fill: var(--request); font-size: 12px; stroke-width: 5px; }
svg .edge.versions path { stroke: var(--soft); stroke-dasharray: 2 3; }
svg .edge.versions text { fill: var(--soft); }
#last { border-collapse: collapse; font: 13px ui-monospace, monospace; }
#last td { padding: .1rem .5rem; border: 1px solid var(--rule); white-space: pre; }
#last tr.bad td { color: var(--dead); font-weight: 700; }
aside a { display: block; color: inherit; text-decoration: none; }
aside a:hover, aside a.on { background: var(--mark); }
</style>
</head>
<body>
<header>
<h1 id="title"></h1><span id="size"></span>
<fieldset id="orders" aria-label="order of each node's entries"></fieldset>
</header>
<main>
<p id="verdict" aria-live="polite"></p>
<div id="picture"></div>
<p id="note" class="note"></p>
<h2>Last contents</h2>
<table id="last"></table>
</main>
<aside>
<h2 id="heading"></h2><pre id="words"></pre>
<h2>Entry</h2><pre id="what" aria-live="polite"></pre>
<h2>Entries of its version</h2><pre id="version"></pre>
</aside>
<noscript>This page needs JavaScript. Its data are the log, and what sciview explain and sciview order write of it.</noscript>
<pre id="data" hidden>"#;

//! What each page begins with. Made by `tools/page/build_head.py --write`; its `--check` compares.

/// Styles, the viewer, and the beginning of the element of lines.
pub const HEAD: &str = r##"<!DOCTYPE html>
<html lang="en">
<head>
<meta charset="utf-8">
<meta name="viewport" content="width=device-width, initial-scale=1">
<meta http-equiv="Content-Security-Policy"
  content="default-src 'none'; style-src 'sha256-mcRHP7wgDlZhCg1Qg+MQ/o8cOJH9p+efm5642Ksy9Mw=' 'sha256-s0koKUXeJyNsS/oXBQx67lifMEXEFyW9OTt7RjxzekQ='; script-src 'sha256-6Djm222alCVt5aYxen74GQu56EXwa86iuD1xMnAl6Sc='">
<title>A FireWire bus, from its log</title>
<style>
/* Colours, in light and in dark, and what all parts share. */
 :root {
  color-scheme: light dark; --bg: #fff; --soft: #f4f6f9; --ink: #1a222d; --dim: #586474;
  --line: #c3cad4; --life: #8e98a6; --read: #677384; --swap: #1f56c4; --write: #08707a; --bid: #7637b8;
  --ok: #15763a; --bad: #c01f2c; --warn: #935800; --hold: #2c68d8; --manager: #ffd98a;
  --select: #e3ecfb; --hit: #fff1b5; --shade: #0002; }
 @media (prefers-color-scheme: dark) {
  :root { --bg: #14181d; --soft: #1c2128; --ink: #e3e8ee; --dim: #9aa6b5; --line: #353d48; --life: #6c7786;
    --read: #97a3b3; --swap: #7fabff; --write: #45c5cb; --bid: #c79dff; --ok: #4cc97c; --bad: #ff7a80; --warn: #efb040;
    --hold: #5d97f6; --manager: #8a5c00; --select: #22344f; --hit: #4b3d0b; --shade: #0008; } }
* { box-sizing: border-box; }
html, body { height: 100%; overflow: hidden; }
body {
  margin: 0; background: var(--bg); color: var(--ink);
  font: 13px/18px system-ui, "Segoe UI", "DejaVu Sans", sans-serif; }
[hidden] { display: none !important; }
#app { display: flex; flex-direction: column; height: 100vh; height: 100dvh; overflow: hidden; }
#reading, noscript p { margin: 24px; }
.unseen { position: absolute; width: 1px; height: 1px; overflow: hidden; clip-path: inset(50%); }
 :focus-visible { outline: 2px solid var(--hold); outline-offset: 1px; }
#view:focus-visible { outline: none; }
code, .word, pre { font: 12px/18px ui-monospace, "SF Mono", Menlo, Consolas, "DejaVu Sans Mono", monospace; }

/* The bar, and the overview below it. */
#bar {
  display: flex; flex-wrap: wrap; align-items: center; gap: 6px 10px; padding: 6px 12px; background: var(--soft);
  border-bottom: 1px solid var(--line); }
#bar select, #bar input, #bar button, #bar summary {
  font: inherit; color: inherit; background: var(--bg); border: 1px solid var(--line); border-radius: 5px;
  height: 26px; padding: 0 8px; }
#bar summary { display: flex; align-items: center; gap: 5px; cursor: pointer; user-select: none; list-style: none; }
#bar summary::-webkit-details-marker { display: none; }
#bar summary::after { content: ""; border: 4px solid transparent; border-top-color: var(--dim); margin: 4px 0 0 2px; }
#bar button { cursor: pointer; }
#bar button[aria-pressed="true"], #bar .on { background: var(--select); border-color: var(--hold); }
#resets { width: 216px; }
.group { display: inline-flex; align-items: center; gap: 2px; }
#query { width: 176px; }
#found { min-width: 62px; padding: 0 4px; color: var(--dim); font-variant-numeric: tabular-nums; text-align: right; }
#finder button { padding: 0 7px; }
#troubles { color: var(--bad); }
#where { margin-left: auto; font-variant-numeric: tabular-nums; white-space: nowrap; }
#where b { font-weight: 600; }
#where span, #between span { color: var(--dim); }
#between { font-variant-numeric: tabular-nums; white-space: nowrap; }
#between:empty { display: none; }
#bar details { position: relative; }
.card {
  position: absolute; z-index: 9; top: 30px; left: 0; max-height: 76vh; overflow: auto; padding: 12px 16px;
  background: var(--bg); border: 1px solid var(--line); border-radius: 8px; box-shadow: 0 6px 24px var(--shade); }
#filters { display: grid; gap: 5px; width: 264px; }
#filters label { display: flex; gap: 8px; align-items: center; }
#filters input { height: auto; }
#key { position: fixed; left: auto; right: 12px; top: auto; margin-top: 4px; }
#filters label > span:last-child { margin-left: auto; color: var(--dim); font-variant-numeric: tabular-nums; }
#filters select { flex: 1; }
#filters hr, #panel hr { width: 100%; border: 0; border-top: 1px solid var(--line); margin: 4px 0; }
#key {
  width: min(720px, 92vw); display: grid; grid-template-columns: repeat(auto-fill, minmax(310px, 1fr)); gap: 4px 22px;
}
#key div { display: flex; gap: 10px; align-items: center; }
#key svg { flex: none; }
#key h3 { grid-column: 1 / -1; margin: 6px 0 0; font-size: 12px; color: var(--dim); }
kbd {
  font: 11px/16px ui-monospace, "DejaVu Sans Mono", monospace; border: 1px solid var(--line);
  border-bottom-width: 2px; border-radius: 4px; padding: 0 5px; background: var(--soft); white-space: nowrap; }
#overview {
  flex: none; display: block; width: 100%; height: 20px; cursor: pointer; background: var(--bg);
  border-bottom: 1px solid var(--line); }

/* The heads of columns, and rows. */
#heads {
  flex: none; position: relative; height: 50px; overflow: hidden; background: var(--bg);
  border-bottom: 1px solid var(--line); box-shadow: 0 1px 4px var(--shade); z-index: 2; }
#heads > svg { position: absolute; top: 0; }
#work { flex: 1; display: flex; min-height: 0; }
#view { flex: 1; min-width: 0; overflow: auto; position: relative; overflow-anchor: none; }
#sheet { position: relative; }
.row { position: absolute; left: 0; width: 100%; overflow: hidden; cursor: default; }
.row > * { position: absolute; top: 0; }
.row .number {
  left: 0; width: 46px; text-align: right; color: var(--dim); text-decoration: none; font-size: 12px;
  line-height: 26px; font-variant-numeric: tabular-nums; }
.row .number:hover { text-decoration: underline; }
.row .cycle {
  left: 46px; width: 68px; text-align: right; font-size: 12px; line-height: 26px; font-variant-numeric: tabular-nums;
  white-space: nowrap; }
.row .same { color: transparent; }
.row:hover .same, .row.selected .same { color: var(--dim); }
.row .net { left: 120px; }
.row .words {
  left: calc(126px + var(--columns)); right: calc(var(--strip) + 14px); line-height: 26px; white-space: nowrap;
  overflow: hidden; text-overflow: ellipsis; }
.row .strip { right: 0; }
.row:hover { background: var(--soft); }
.row.red { box-shadow: inset 3px 0 var(--bad); }
.row.amber { box-shadow: inset 3px 0 var(--warn); }
.row.hit { background: var(--hit); }
.row.selected { background: var(--select); }
.row.mark::after {
  content: "marked"; position: absolute; right: calc(var(--strip) + 8px); top: 5px; font-size: 10px;
  line-height: 16px; padding: 0 5px; border-radius: 8px; background: var(--hold); color: var(--bg); }
.words b { font-weight: 600; }
.words .word, .quiet { color: var(--dim); }
.words > * + * { margin-left: 7px; }
.verb { display: inline-block; min-width: 34px; color: var(--tone); font-weight: 600; }
.read { --tone: var(--read); }
.swap { --tone: var(--swap); }
.write { --tone: var(--write); }
.bid { --tone: var(--bid); }
.stream { --tone: var(--hold); } .note { --tone: var(--ink); }
.yes { color: var(--ok); font-weight: 600; }
.no { color: var(--bad); font-weight: 600; }
.hm { color: var(--warn); font-weight: 600; }
#view .change {
  top: 4px; right: calc(var(--strip) - 2px); font-size: 11px; padding: 0 5px; border-radius: 4px; color: var(--ink);
  background: var(--soft); }
.gap .words { color: var(--dim); font-style: italic; }
.gap:hover, .top:hover { background: none; }
.script .words { font: 12px/20px ui-monospace, "DejaVu Sans Mono", monospace; color: var(--ink); }
.script .number { line-height: 20px; color: var(--dim); }
.script { background: color-mix(in srgb, var(--soft) 70%, transparent); }
.script .comment { color: var(--dim); font-style: italic; }

/* Bus resets, and the head of the page. */
.reset { border-top: 1px solid var(--line); background: var(--bg); }
.reset:hover { background: var(--bg); }
.reset.selected { background: var(--bg); box-shadow: inset 3px 0 var(--hold); }
.reset h2 {
  left: 16px; right: calc(var(--strip) + 14px); margin: 0; top: 8px; font-size: 15px; line-height: 22px;
  white-space: nowrap; overflow: hidden; text-overflow: ellipsis; }
.reset h2 small { font-size: 12.5px; font-weight: 400; color: var(--dim); margin-left: 10px; }
.reset h2 a { color: inherit; text-decoration: none; }
.reset button {
  font: 11px/16px system-ui, sans-serif; color: var(--dim); background: none; border: 1px solid var(--line);
  border-radius: 4px; margin-left: 10px; cursor: pointer; vertical-align: 2px; }
.folded h2 { top: 4px; font-size: 13px; }
.top { padding: 12px 16px 14px; }
.top > * { position: static; }
.probe { position: relative; visibility: hidden; }
.top h1 { font-size: 19px; line-height: 26px; margin: 0 0 2px; }
.top p { margin: 1px 0; max-width: 1100px; }
.top .end { display: flex; flex-wrap: wrap; gap: 2px 18px; }
.top button {
  font: inherit; color: var(--swap); background: none; border: 0; padding: 0; text-decoration: underline;
  cursor: pointer; }

/* The panel. */
#panel {
  position: relative; flex: none; width: 352px; overflow: auto; border-left: 1px solid var(--line);
  background: var(--bg); padding: 12px 14px 24px; }
#panel h2 { margin: 0 28px 2px 0; font-size: 15px; line-height: 20px; }
#panel h3 {
  margin: 14px 0 3px; font-size: 11px; line-height: 16px; text-transform: uppercase; letter-spacing: .05em;
  color: var(--dim); font-weight: 600; }
#panel .words { margin: 4px 0; }
#panel p { margin: 2px 0; overflow-wrap: anywhere; }
#panel table { border-collapse: collapse; width: 100%; }
#panel td, #panel th {
  text-align: left; font-weight: 400; vertical-align: top; padding: 1px 8px 1px 0;
  border-bottom: 1px solid var(--soft); overflow-wrap: anywhere; }
#panel th { color: var(--dim); width: 38%; }
#panel pre {
  white-space: pre-wrap; overflow-wrap: anywhere; margin: 0; font-size: 11px; line-height: 16px; color: var(--dim); }
#panel a { color: var(--swap); }
#panel summary { cursor: pointer; overflow-wrap: anywhere; }
#panel .tools { display: flex; flex-wrap: wrap; gap: 6px; margin: 8px 0 0; }
#panel button {
  font: inherit; font-size: 12px; color: inherit; background: var(--soft); border: 1px solid var(--line);
  border-radius: 5px; padding: 1px 8px; cursor: pointer; }
#panel #close { position: absolute; right: 10px; top: 10px; }

/* What is drawn: SVG. */
svg { overflow: hidden; display: block; }
svg text { font: 11px system-ui, "DejaVu Sans", sans-serif; fill: var(--ink); }
svg .name { font-weight: 600; font-size: 11.5px; }
svg .small { font-size: 10px; fill: var(--dim); }
svg .middle { text-anchor: middle; } svg .end { text-anchor: end; } .reset .net { overflow: visible; }
.life { stroke: var(--life); stroke-width: 1; }
.dead { stroke: var(--bad); stroke-width: 3; stroke-dasharray: 2 3; }
.deaf { stroke: var(--warn); stroke-width: 3; stroke-dasharray: 1 3; }
.talks { fill: var(--hold); } .hears { fill: var(--write); }
.arrow { fill: none; stroke: var(--tone); stroke-width: 1.8; }
.late { stroke-dasharray: 5 3; }
.head { fill: var(--tone); stroke: none; }
.head.yes { fill: var(--ok); } .head.no { fill: var(--bad); }
.cross { fill: none; stroke: var(--bad); stroke-width: 2.2; }
.waiting { fill: var(--tone); opacity: .45; }
.pipe { fill: none; stroke: var(--hold); stroke-width: 5; } .pipe-in { fill: none; stroke: var(--bg); stroke-width: 2; }
.sign { fill: var(--bg); stroke: var(--ink); stroke-width: 1.4; } .sign.manager { fill: var(--manager); }
.blank { fill: var(--bg); } .point { fill: var(--life); }
.cable { fill: none; stroke: var(--ink); }
.lane-line { stroke: var(--line); stroke-width: 1; }
.units-room { fill: var(--soft); } .units { fill: var(--hold); opacity: .5; }
.connected { fill: var(--hold); }
.pending { fill: url(#p-pending); stroke: var(--warn); stroke-width: 1; }
.orphaned { fill: url(#p-orphaned); stroke: var(--bad); stroke-width: 1; }
.continues { fill: url(#p-continues); }
.reclaimable { fill: url(#p-reclaimable); }
.taken { fill: url(#p-taken); stroke: var(--hold); stroke-width: 1; }
.unseen-taken { fill: url(#p-unseen); stroke: var(--dim); stroke-width: 1; }
.dot { fill: var(--hold); stroke: var(--bg); }
.icon-ok { fill: var(--ok); }
.icon-no { fill: var(--bad); }
.icon-hm { fill: var(--warn); }
.icon-note { fill: var(--dim); }
.icon-line { fill: none; stroke: var(--bg); stroke-width: 1.8; }

/* No room for the panel at the side: it goes below. */
 @media (max-width: 1000px) {
  #resets { width: 170px; } #query { width: 140px; } #found { min-width: 0; }
  #work { flex-direction: column; }
  #panel { width: auto; height: 46%; border-left: 0; border-top: 2px solid var(--line); }
}

/* Small screens: words below the drawing. */
 @media (max-width: 720px) {
  #resets { width: 132px; } #query { width: 110px; } #found { min-width: 0; } #bar { gap: 6px; padding: 6px 8px; }
  #where { margin-left: 0; font-size: 12px; }
  .row .number { width: 38px; font-size: 11px; } .row .cycle { display: none; } .row .net { left: 46px; }
  .row .words {
    left: 46px; right: calc(var(--strip) + 2px); top: 22px; line-height: 20px;
    background: color-mix(in srgb, var(--bg) 82%, transparent); }
  .gap .words, .script .words { top: 0; line-height: 20px; left: 46px; background: inherit; }
  .reset h2 { left: 10px; right: calc(var(--strip) + 2px); white-space: normal; }
  .reset h2 small { display: block; margin: 0; }
  #filters { position: fixed; left: auto; right: 8px; top: auto; margin-top: 4px; }
  .row.mark::after { top: 2px; } .row.hit .words, .row.selected .words { background: none; }
}
 @media (prefers-reduced-motion: no-preference) { .row.selected { transition: background .12s; } }

/* Print: a plain table of what is shown. */
#printed { display: none; }
 @media print {
  html, body { height: auto; overflow: visible; }
  #app, #reading { display: none !important; }
  #printed { display: block; font-size: 9px; line-height: 12px; color: #000; }
  #printed h1 { font-size: 15px; line-height: 20px; margin: 0 0 4px; } #printed p { margin: 1px 0; font-size: 10px; }
  #printed table { border-collapse: collapse; width: 100%; margin-top: 8px; }
  #printed thead { display: table-header-group; }
  #printed td, #printed th {
    text-align: left; vertical-align: top; padding: 1px 8px 1px 0; border-bottom: .5px solid #bbb;
    overflow-wrap: anywhere; }
  #printed td:nth-child(-n+3), #printed th { white-space: nowrap; }
  #printed .word { font-size: 8.5px; line-height: 12px; }
  #printed .section td { white-space: normal; }
  #printed tr { break-inside: avoid; }
  #printed .section td { font-weight: 600; padding-top: 6px; font-size: 10px; }
  #printed .red td:nth-child(4) { font-weight: 600; }
  @page { size: A4 landscape; margin: 12mm; } }
</style>
<noscript><style>/* Without scripts the lines of the log are shown as they stand. */
html, body { height: auto !important; overflow: visible !important; }
#reading { display: none; }
#log {
  display: block !important; margin: 24px; white-space: pre-wrap; overflow-wrap: anywhere;
  font: 12px/17px ui-monospace, "DejaVu Sans Mono", monospace; }
</style></noscript>
</head>
<body>
<noscript><p>This page is a log of a FireWire bus. Scripts are off, so it is not drawn, but here are its lines. A line
that begins with <code>{</code> is one of <code>fire json</code>, with <code>=</code> of <code>explain</code>, with
<code>@</code> of <code>holders</code>, with <code>~</code> of <code>watch</code>, with <code>&gt;</code> of the
script: <code>grep '^=' x.html | cut -c2-</code> says what happened, line by line. The last line begins with
<code>:log</code>; if there is none, the page was not written to its end.</p></noscript>
<p id="reading">Reading the log .. (If this stays, the page was not written to its end.)</p>
<div id="app" hidden>
<header id="bar" role="toolbar" aria-label="Find in the log">
<span class="group">
<label for="resets" class="unseen">Bus reset</label>
<select id="resets" title="Go to a bus reset ([ and ])"></select>
</span>
<span class="group" id="finder">
<input id="query" type="search" placeholder="Search  /" aria-label="Search" autocomplete="off" spellcheck="false">
<output id="found" aria-live="polite"></output>
<button id="previous" title="Previous match (p)" aria-label="Previous match">&#8593;</button>
<button id="next" title="Next match (n)" aria-label="Next match">&#8595;</button>
</span>
<button id="trouble" aria-pressed="false" title="Only rows with trouble (t)">Only trouble <b id="troubles"></b></button>
<details id="filter"><summary>Filter <b id="filtered"></b></summary><div class="card" id="filters"></div></details>
<details id="help"><summary>Key</summary><div class="card" id="key"></div></details>
<span id="where" title="The first row in view"></span>
<output id="between" aria-live="polite"></output>
</header>
<canvas id="overview" height="20" aria-hidden="true"
  title="The whole log: grey a bus reset, red trouble, amber a swap not made. Click to go there."></canvas>
<div id="heads" aria-hidden="true"></div>
<div id="work">
<div id="view" tabindex="0" role="listbox" aria-label="Rows of the log"><div id="sheet"></div></div>
<aside id="panel" hidden aria-label="The selected row"></aside>
</div>
</div>
<div id="printed"></div>
<script>
'use strict';
// Terms: numbers of the log and of IEEE 1394, limits of the viewer, and how numbers are written.
// Everything uses this; it uses nothing.
// The sources are ASCII: \u2713 is a check mark, \u2717 a cross, \u2190 and \u2192 arrows, \u21c4 there and back,
// \u00b7 a dot.

// Kinds of entries, as `json` numbers them; an odd one is not understood and is shown as text.
const ODD = 0, RESET = 1, PACKET = 2, STREAM = 3, EVENT = 4, OUTCOME = 5, SHOWN = 6, END = 7;
// Kinds of rows, and trouble in them.
const TOP = 0, SECTION = 1, EXCHANGE = 2, REQUEST = 3, ANSWER = 4, RUN = 5, FLOW = 6, HAPPENS = 7, GAP = 8, LINE = 9,
  STOP = 10, FINISH = 11;
const RED = 2, AMBER = 1;
// Transaction codes.
const READ = 4, READ_BLOCK = 5, CYCLE_START = 8, LOCK = 9, LOCK_ANSWER = 11;
const READS = [4, 5, 6, 7];
const ANSWER_OF = { 0: 2, 1: 2, 4: 6, 5: 7, 9: 11 };
// Codes of events and outcomes.
const SECOND_OVER = 1, DIED = 2, STARTED = 3, UNSETTLED = 6, LOST = 7;
const RESTORED = 3, ENDED_BY_RESET = 11;
// Addresses: of registers the last three digits; nodes of the local bus are FFC0 and above.
const BUS_MANAGER_ID = 0x21C, FCP_COMMAND = 0xB00, FCP_RESPONSE = 0xD00;
const LOCAL_BUS = 0xFFC0, BROADCAST = 0xFFFF, MOST_NODES = 63, CHANNELS = 64;
const NONE = 0xFFFF;                                  // no offset, no device
const ALL_UNITS = 4915;
const AVC_TIME = 800;                                 // cycles: 100 ms (IEC 61883-1)
const SHORT_PAUSE = 80;                               // cycles of a stream that are missing rather than not written
const DEVICE_KINDS = ['relay', 'deck', 'camcorder', 'computer'];

const LONGEST_LINE = 40000;                           // of a longer line (no word writes one) the rest is not looked at
const LONGEST_TEXT = 3000;                            // of a longer text in a row the rest is not shown
const OPEN_REQUESTS = 256;                            // as many as `explain` keeps
const TALLEST = 16e6;                                 // dots; browsers draw no taller element
const PRINTED_ROWS = 5000, LISTED_RESETS = 20000, LISTED_ENTRIES = 300;

const commas = number => String(number).replace(/\B(?=(\d{3})+$)/g, ',');
const plural = (number, noun) => commas(number) + ' ' + (number === 1 ? noun : noun.replace(/try$/, 'trie') + 's');
const seconds = cycle => (cycle / 8000).toFixed(6) + ' s';

function duration(cycles) {
  return cycles < 8000 ? (cycles / 8).toFixed(3) + ' ms' : (cycles / 8000).toFixed(6).replace(/\.?0+$/, '') + ' s';
}

const cut = (text, most) => text.length > most ? text.slice(0, most) + ' ..' : text;
const clamp = (number, low, high) => Math.max(low, Math.min(high, number));

/** The place of the last element of an ascending list that is at most x; -1 if there is none. */
function lastUpTo(list, x) {
  let low = 0, high = list.length;
  while (low < high) {
    const middle = (low + high) >> 1;
    if (list[middle] <= x) low = middle + 1; else high = middle;
  }
  return low - 1;
}

// Elements: makes those of the page. All text goes in through `textContent`.
// Others call `$`, `element`, `put`, `labelled`, `svg`.

const SMALL_SCREEN = 720;
let smallScreen = false;                                      // `layout.js` measures it

/** @type {(id: string) => any} */
const $ = id => document.getElementById(id);

/** @returns {any} */
function element(tag, kind, text) {
  const made = document.createElement(tag);
  if (kind) made.className = kind;
  if (text !== undefined) made.textContent = text;
  return made;
}

/** Appends a text, if there is one. */
function put(box, kind, text, tag = 'span') {
  if (text) box.append(element(tag, kind, cut(text, LONGEST_TEXT)));
}

function button(text, press) {
  const made = element('button', '', text);
  made.onclick = press;
  return made;
}

function checkBox(id, checked, change) {
  const made = element('input');
  Object.assign(made, { type: 'checkbox', id, checked, onchange: () => change(made.checked) });
  return made;
}

function labelled(...parts) {
  const made = element('label');
  made.append(...parts);
  return made;
}

/** @returns {any} */
function svg(tag, attributes, ...content) {
  const made = document.createElementNS('http://www.w3.org/2000/svg', tag);
  for (const name in attributes) made.setAttribute(name, attributes[name]);
  made.append(...content.map(part => typeof part === 'number' ? String(part) : part));
  return made;
}

/** A drawing beside words, so a screen reader passes it over. */
const drawing = (kind, width, height) => svg('svg', { class: kind, width, height, 'aria-hidden': true });

// Scan: reads a line of `json` by place, without making an object: its keys come in a fixed order and without blanks,
// so each value stands where what is before it ends. `data.js` uses it.

const QUOTE = 34;
const LONGEST_NUMBER = 20, LONGEST_NAME = 40;

const scan = {
  text: '', at: 0, fine: true,

  begin(text, at) { this.text = text; this.at = at; this.fine = true; },

  has(piece) { return this.text.startsWith(piece, this.at); },

  /** Passes what stands before a value. Its last character alone is compared: to compare all takes too long. */
  pass(piece) {
    this.at += piece.length;
    if (this.text.charCodeAt(this.at - 1) !== piece.charCodeAt(piece.length - 1)) this.fine = false;
  },

  /** The number after a key. It is a text if it is beyond 2^53, and of a device `null` is none. */
  number(key, most) {
    this.pass(key);
    const { text } = this, quotes = Number(text.charCodeAt(this.at) === QUOTE), first = this.at + quotes;
    let value = 0, at = first;
    for (let c = text.charCodeAt(at); c >= 48 && c <= 57 && at - first < LONGEST_NUMBER; c = text.charCodeAt(++at)) {
      value = value * 10 + c - 48;
    }
    this.at = at + quotes;
    if (at > first && value <= most) return value;
    if (most === NONE && this.has('null')) return NONE;
    this.fine = false;
    return 0;
  },

  /** Passes the name of a number: a text, or `null`. */
  name(key) {
    this.pass(key);
    if (this.text.charCodeAt(this.at) !== QUOTE) { this.pass('null'); return; }
    const end = this.text.indexOf('"', this.at + 1);
    if (end < 0 || end - this.at > LONGEST_NAME) this.fine = false; else this.at = end + 1;
  },

  /** The number of hexadecimal digits after a key. */
  digits(key, count) {
    this.pass(key);
    const { text } = this, end = this.at + count;
    let value = 0, at = this.at;
    for (; at < end; at++) {
      const c = text.charCodeAt(at), digit = c < 58 ? c - 48 : c - 87;
      if (!(digit >= 0 && digit < 16)) this.fine = false;
      value = value * 16 + digit;
    }
    this.at = end;
    return value;
  },
};

// Data: the text of the element `log` becomes entries. A line's first character says what it is: `{` an entry as `json`
// has it, `=` the same by `explain`, `@` what `holders` says of it, `~` what `watch` says of it, `>` a line of the
// script, before what it caused, `:` how something ended. Others call `readLog`, then `lineAt`, `explained`,
// `objectOf`, `linesOf`.
//
// The text may be damaged: what is not understood becomes an odd entry or an odd line, with harmless numbers.

/** @type {ReturnType<typeof readLog>} */
let log;

const told = () => ({ places: /** @type {number[]} */ ([]), entries: /** @type {number[]} */ ([]) });

/** @param {string} text */
function readLog(text) {
  let count = text.startsWith('{') ? 1 : 0;
  for (let at = text.indexOf('\n{'); at >= 0; at = text.indexOf('\n{', at + 2)) count++;
  const read = {
    text, count,
    place: new Float64Array(count), explained: new Float64Array(count),
    cycle: new Float64Array(count), kind: new Uint8Array(count),
    code: new Uint8Array(count),                               // tcode, event, outcome; of a stream its channel
    from: new Uint16Array(count),                              // node ID; of a stream the SID; of the others the device
    to: new Uint16Array(count),
    label: new Uint8Array(count), rcode: new Uint8Array(count), offset: new Uint16Array(count),
    dbc: new Uint8Array(count), block: new Uint8Array(count),  // of a stream: DBC, and whether it has a block
    held: told(), watched: told(), between: told(),            // lines of holders, of watch, of the script and odd ones
    closing: /** @type {number[]} */ ([]),
    ends: /** @type {Map<string, { status: number, note: string }>} */ (new Map()),
  };
  let entry = -1;
  for (let at = 0, next = 0; at < text.length; at = next + 1) {
    next = text.indexOf('\n', at);
    const isWhole = next >= 0;
    if (!isWhole) next = text.length;
    if (next === at) continue;
    switch (text[at]) {
      case '{': readEntry(read, ++entry, at); break;
      case '=': if (entry >= 0) read.explained[entry] = at + 1; break;
      case '@': keepLine(read, read.held, entry, at + 1); break;
      case '~': keepLine(read, read.watched, entry, at + 1); break;
      case ':': if (isWhole) keepEnding(read, text.slice(at + 1, Math.min(next, at + LONGEST_LINE))); break;
      default: read.between.places.push(at); read.between.entries.push(entry + 1);
    }
  }
  return read;
}

/** A line of an account begins with its cycle; the others close it. */
function keepLine(read, list, entry, at) {
  if (!/[ \d]/.test(read.text[at])) { read.closing.push(at - 1); return; }
  list.places.push(at);
  list.entries.push(entry);
}

function keepEnding(read, line) {
  const [, word, status, note] = /^(\w+) (\d+) ?(.*)$/.exec(line) || [null, '', '', ''];
  if (word) read.ends.set(word, { status: Number(status), note });
}

const REGISTERS = '","offset":"fffff0000';                    // those of the first 4,096 bytes
const KIND_NAMES = ['', 'reset', 'async', 'iso', 'event', 'outcome', 'shown', 'end']
  .map(name => ',"kind_name":"' + name + '"');

function readEntry(read, e, place) {
  read.place[e] = place;
  read.offset[e] = NONE;
  scan.begin(read.text, place);
  const cycle = scan.number('{"cycle":', 2 ** 64);
  read.cycle[e] = scan.fine ? cycle : e ? read.cycle[e - 1] : 0;
  const kind = scan.number(',"kind":', END);
  scan.pass(KIND_NAMES[kind]);
  if (kind === PACKET) readPacket(read, e);
  else if (kind === STREAM) readStream(read, e);
  else if (kind === EVENT || kind === OUTCOME) {
    read.code[e] = scan.number(',"code":', 255);
    scan.name(',"code_name":');
    read.from[e] = scan.number(',"device":', NONE);
  } else if (kind === SHOWN) read.from[e] = scan.number(',"device":', NONE);
  read.kind[e] = scan.fine ? kind : ODD;
  if (read.kind[e] === ODD) read.from[e] = NONE;
}

function readPacket(read, e) {
  const tcode = read.code[e] = scan.number(',"tcode":', 15);
  scan.name(',"tcode_name":');
  read.to[e] = scan.digits(',"dst_id":"', 4);
  read.label[e] = scan.number('","tlabel":', 63);
  scan.number(',"retry":', 3);
  scan.name(',"retry_name":');
  scan.number(',"priority":', 15);
  read.from[e] = scan.digits(',"src_id":"', 4);
  if (tcode in ANSWER_OF || tcode === CYCLE_START) {
    if (tcode !== CYCLE_START && scan.has(REGISTERS)) read.offset[e] = scan.digits(REGISTERS, 3);
  } else read.rcode[e] = scan.number('","rcode":', 15);
}

function readStream(read, e) {
  read.block[e] = Number(scan.number(',"data_length":', 0xFFFF) > 8);
  scan.number(',"tag":', 3);
  read.code[e] = scan.number(',"channel":', CHANNELS - 1);
  scan.number(',"tcode":', 15);
  scan.name(',"tcode_name":');
  scan.number(',"sy":', 15);
  read.from[e] = scan.number(',"sid":', MOST_NODES);
  for (const key of [',"dbs":', ',"fn":', ',"qpc":', ',"sph":']) scan.number(key, 255);
  read.dbc[e] = scan.number(',"dbc":', 255);
}

/** The text from a place to the end of its line. */
function lineAt(place) {
  const end = log.text.indexOf('\n', place);
  return log.text.slice(place, Math.min(end < 0 ? log.text.length : end, place + LONGEST_LINE));
}

/** The line of an entry by `explain`; its own line if it is odd; nothing if the page was cut between. */
function explained(e) {
  return log.explained[e] ? lineAt(log.explained[e]) : log.kind[e] === ODD ? lineAt(log.place[e]) : '';
}

/** The object of an entry; an empty one if its line is none. */
function objectOf(e) {
  try {
    return Object(JSON.parse(lineAt(log.place[e])));
  } catch (fault) {
    return {};
  }
}

/** The lines that an account has of some entries. */
function linesOf(list, first, last) {
  const lines = [];
  for (let i = lastUpTo(list.entries, first - 1) + 1; i < list.places.length && list.entries[i] <= last; i++) {
    lines.push(lineAt(list.places[i]));
  }
  return lines;
}

/** A line of `holders` or `watch` without its cycle. */
const withoutCycle = line => line.replace(/^ *\d+ */, '');

// Transactions: which request a response answers, and which are never answered; AV/C commands and their responses.
// `rows.js` makes one and tells it each packet. Decided as by `explain`: nodes the other way round, label, kind; 256
// are kept;
// a bus reset drops all. A request that is not answered at once gets a bar that waits.

const toBroadcast = e => log.to[e] === BROADCAST;

/** The colour of a packet, which is its class for a filter, too. */
function toneOf(e) {
  if (READS.includes(log.code[e])) return 'read';
  if (log.code[e] === LOCK || log.code[e] === LOCK_ANSWER) return log.offset[e] === BUS_MANAGER_ID ? 'bid' : 'swap';
  return 'write';
}

/** What came of a response: `no` a refusal, `yes` a swap made, `hm` a swap not made, else nothing. */
function resultOf(answer) {
  if (log.rcode[answer]) return 'no';
  if (log.code[answer] !== LOCK_ANSWER) return '';
  const words = explained(answer);
  return words.includes(', swap made') ? 'yes' : words.includes(', no swap') ? 'hm' : '';
}

const isCommand = e => / FCP_COMMAND AV\/C (CONTROL|STATUS|NOTIFY|SPECIFIC INQUIRY|GENERAL INQUIRY)/.test(explained(e));
const pairOf = (from, to, label) => (from * 65536 + to) * 64 + label;

/** @param {ReturnType<typeof rowBuilder>} build */
function pairing(build) {
  const open = new Map(), barOf = new Map(), { rowOf, partner, bars, sums } = build;
  let commands = [];                                           // AV/C commands without a response

  function waits(request) {
    if (barOf.has(request) || toBroadcast(request)) return;
    barOf.set(request, bars.length);
    bars.push({
      from: rowOf[request], to: Infinity, node: log.from[request] - LOCAL_BUS, tone: toneOf(request), unanswered: false,
      shift: (bars.length % 3 - 1) * 2,                        // so that some beside each other are seen
    });
  }

  function waitsUntil(request, row, unanswered) {
    const bar = bars[barOf.get(request)];
    if (bar) Object.assign(bar, { to: row, unanswered });
    barOf.delete(request);
  }

  function endUnanswered(request, level, why, row) {
    waitsUntil(request, row, true);
    if (toBroadcast(request)) return;
    sums.unanswered++;
    build.mark(rowOf[request], level, why);
  }

  function commandsWithoutResponse(those, why) {
    for (const command of those) {
      sums.commands++;
      build.mark(rowOf[command], RED, why);
    }
    commands = commands.slice(those.length);
  }

  function noteFrame(e) {
    if (log.offset[e] === FCP_COMMAND && !toBroadcast(e) && isCommand(e)) commands.push(e);
    if (log.offset[e] !== FCP_RESPONSE) return;
    const answers = commands.findIndex(command => log.from[command] === log.to[e] && log.to[command] === log.from[e]);
    if (answers >= 0) commands.splice(answers, 1);
  }

  /** Joins an answer to its request: in one row if nothing is between. */
  function rowOfAnswer(e, request, row) {
    const atOnce = request >= 0 && build.kind[row] === REQUEST && build.first[row] === request
      && log.cycle[request] === log.cycle[e];
    if (atOnce) {
      build.kind[row] = EXCHANGE;
      build.last[row] = e;
      return row;
    }
    if (request >= 0) sums.between++;
    return build.add(ANSWER, e);
  }

  return {
    request(e) {
      const key = pairOf(log.from[e], log.to[e], log.label[e]), older = open.get(key),
        row = rowOf[e] = build.add(REQUEST, e);
      if (older !== undefined) {
        open.delete(key);
        endUnanswered(older, RED, 'no answer before it is asked again', row);
      }
      open.set(key, e);
      if (open.size > OPEN_REQUESTS) {
        const [oldestKey, oldest] = open.entries().next().value;
        open.delete(oldestKey);
        endUnanswered(oldest, RED, '256 later requests stand', row);
      }
      noteFrame(e);
    },

    answer(e) {
      const key = pairOf(log.to[e], log.from[e], log.label[e]), stands = open.get(key);
      const fits = stands !== undefined && ANSWER_OF[log.code[stands]] === log.code[e], request = fits ? stands : -1;
      const row = rowOf[e] = rowOfAnswer(e, request, build.kind.length - 1);
      if (request < 0) { build.mark(row, RED, 'no request stands'); return; }
      open.delete(key);
      partner[e] = request;
      partner[request] = e;
      if (rowOf[request] !== row) {
        waits(request);
        waitsUntil(request, row, false);
      }
      sums.answered++;
      const result = resultOf(e);
      if (result === 'no') { sums.refused++; build.mark(row, RED); }
      else if (result === 'hm') { sums.notMade++; build.mark(row, AMBER); }
      else if (result === 'yes') sums.made++;
      else if (log.code[request] === READ || log.code[request] === READ_BLOCK) sums.reads++;
    },

    /** An entry of this cycle comes: commands that have waited too long are marked. */
    passTime(cycle) {
      if (!commands.length) return;
      const due = commands.findIndex(command => cycle - log.cycle[command] <= AVC_TIME);
      const late = due < 0 ? commands : commands.slice(0, due);
      commandsWithoutResponse(late, 'no AV/C response within ' + AVC_TIME + ' cycles');
    },

    busReset(row) {
      commandsWithoutResponse(commands, 'no AV/C response before the bus reset');
      for (const request of open.values()) {
        waits(request);
        endUnanswered(request, RED, 'no answer before the bus reset', row);
      }
      open.clear();
    },

    end(row) {
      for (const request of open.values()) {
        waits(request);
        const bar = bars[barOf.get(request)];
        if (bar) bar.to = row;
        if (toBroadcast(request)) continue;
        sums.unanswered++;
        build.mark(rowOf[request], AMBER, 'no answer before the log ends');
      }
    },
  };
}

// Streams: isochronous packets and cycle starts that follow each other, cycle by cycle, become a run: a row of its
// cycles, and
// below it a row for each channel and sender, a flow. `rows.js` makes one and tells it each of them.

/** @param {ReturnType<typeof rowBuilder>} build */
function streaming(build) {
  const due = new Map();                                       // of a flow: the DBC that is due, and since when
  let run = null;

  function newFlow(e, key) {
    const dbc = log.dbc[e], earlier = due.get(key);
    const late = earlier && earlier.dbc !== dbc;
    return {
      channel: log.code[e], sid: log.from[e], entry: e, first: dbc, due: dbc, blocks: 0, empty: 0, gaps: 0,
        cycles: null,
      missing: late ? dbc - earlier.dbc & 255 : 0, pause: late ? log.cycle[e] - earlier.cycle : 0,
    };
  }

  function flowPacket(e) {
    const key = log.code[e] * 64 + log.from[e], flow = run.flows.get(key) || newFlow(e, key);
    run.flows.set(key, flow);
    if (log.dbc[e] !== flow.due) flow.gaps++;
    flow.due = log.dbc[e] + log.block[e] & 255;
    due.set(key, { dbc: flow.due, cycle: log.cycle[e] });
    if (log.block[e]) flow.blocks++; else flow.empty++;
  }

  function keepFlow(row, flow) {
    build.runs[row] = flow;
    if (flow.gaps) build.mark(row, RED); else if (flow.missing && flow.pause <= SHORT_PAUSE) build.mark(row, AMBER);
  }

  return {
    take(e) {
      const cycle = log.cycle[e];
      if (!run || cycle > run.last + 1 || cycle < run.last) {
        this.endRun();
        build.gapBefore(e);
        run = { first: cycle, last: cycle, starts: 0, source: -1, flows: new Map(), row: build.add(RUN, e) };
        build.runs[run.row] = run;
      }
      run.last = cycle;
      build.last[run.row] = e;
      build.rowOf[e] = run.row;
      if (log.kind[e] === STREAM) { flowPacket(e); return; }
      run.starts++;
      run.source = log.from[e];
    },

    endRun() {
      if (!run) return;
      const flows = [...run.flows.values()].sort((a, b) => a.channel - b.channel || a.sid - b.sid);
      if (flows.length === 1 && !run.starts) {                 // one row is enough
        build.kind[run.row] = FLOW;
        flows[0].cycles = [run.first, run.last];
        keepFlow(run.row, flows[0]);
      } else for (const flow of flows) keepFlow(build.add(FLOW, flow.entry), flow);
      run = null;
    },

    busReset() { due.clear(); },
  };
}

// Rows: entries become rows in order; each entry is in just one (of a run: in its row of cycles).
// Others call `makeRows` once, then `rows` and what is said of a row here: `classOf`, `isPackets`, `momentOf`,
// `sectionAt`.

/** @typedef {{ from: number, to: number, node: number, tone: string, unanswered: boolean, shift: number }} Bar */

/** @type {ReturnType<typeof makeRows>} */
let rows;

/** What rows are made with. `first` and `last` are entries; of a line its place in the list of lines. */
function rowBuilder() {
  const build = {
    kind: [TOP], first: [0], last: [-1], trouble: [0], section: [0],
    why: /** @type {Map<number, string>} */ (new Map()),
    sections: [{ entry: -1, row: 0, met: new Set(), quiet: true }],
    rowOf: new Int32Array(log.count).fill(-1), partner: new Int32Array(log.count).fill(-1),
    bars: /** @type {Bar[]} */ ([]),
    runs: /** @type {any[]} */ ([]),                           // of a row of a run or a flow: what is in it
    sums: { answered: 0, between: 0, reads: 0, made: 0, notMade: 0, refused: 0, unanswered: 0, commands: 0 },
    codes: { [EVENT]: new Map(), [OUTCOME]: new Map() },       // of each code: how often it occurs, and its first entry

    add(kind, first, last = first) {
      build.section.push(build.sections.length - 1);
      build.kind.push(kind);
      build.first.push(first);
      build.last.push(last);
      return build.trouble.push(0) - 1;
    },

    mark(row, level, why = '') {
      build.trouble[row] = Math.max(build.trouble[row], level);
      if (why) build.why.set(row, build.why.has(row) ? build.why.get(row) + '; ' + why : why);
    },

    gapBefore(e) {
      if (e && log.cycle[e] - log.cycle[e - 1] > 1) build.add(GAP, e, e - 1);
    },

    /** The section of now; `met` are the nodes that take part in it. */
    now() { return build.sections[build.sections.length - 1]; },
  };
  return build;
}

function makeRows() {
  const build = rowBuilder(), pairs = pairing(build), streams = streaming(build);
  const stop = /^entry (\d+)/.exec((log.ends.get('holders') || { note: '' }).note);
  const stopEntry = stop ? Number(stop[1]) : -1;
  let line = 0;

  function linesBefore(e) {
    for (; line < log.between.places.length && log.between.entries[line] <= e; line++) {
      streams.endRun();
      const row = build.add(LINE, line);
      if (log.text[log.between.places[line]] !== '>') build.mark(row, RED);
    }
  }

  function packet(e) {
    if (log.code[e] in ANSWER_OF) pairs.request(e); else pairs.answer(e);
    build.now().met.add(log.from[e]).add(log.to[e]);
  }

  function happening(e) {
    const kind = log.kind[e], code = log.code[e], row = build.rowOf[e] = build.add(kind === END ? FINISH : HAPPENS, e);
    if (kind in build.codes) countCode(build.codes[kind], code, e);
    if (kind === EVENT && isBadEvent(code)) build.mark(row, RED);
    if (kind === OUTCOME && code > RESTORED) build.mark(row, code === ENDED_BY_RESET ? AMBER : RED);
    if (kind === ODD) build.mark(row, RED, 'not understood');
  }

  function busReset(e) {
    const row = build.kind.length;
    pairs.busReset(row);
    streams.busReset();
    build.sections.push({ entry: e, row, met: new Set(), quiet: true });
    build.rowOf[e] = build.add(SECTION, e);
  }

  function take(e) {
    const kind = log.kind[e];
    if (kind === STREAM || (kind === PACKET && log.code[e] === CYCLE_START)) {
      streams.take(e);
      build.now().met.add(kind === STREAM ? LOCAL_BUS + log.from[e] : log.from[e]);
      if (kind === STREAM) build.now().quiet = false;
      return;
    }
    streams.endRun();
    build.gapBefore(e);
    if (kind === RESET) busReset(e); else if (kind === PACKET) packet(e); else happening(e);
    if (kind !== RESET && !(kind === EVENT && log.code[e] === SECOND_OVER)) build.now().quiet = false;
  }

  for (let e = 0; e < log.count; e++) {
    linesBefore(e);
    if (log.kind[e] !== RESET) pairs.passTime(log.cycle[e]);
    take(e);
    if (e === stopEntry) {
      streams.endRun();
      build.mark(build.add(STOP, e), AMBER);
    }
  }
  streams.endRun();
  linesBefore(Infinity);
  const end = log.ends.get('log'), whole = end && end.status === 0;
  if (!whole) build.mark(build.add(FINISH, log.count, log.count - 1), RED);
  pairs.end(build.kind.length - 1);
  log.watched.places.forEach((place, i) => {
    const remark = remarkAt(place), row = build.rowOf[log.watched.entries[i]];
    if (remark && row >= 0) build.mark(row, remark === '!' ? RED : AMBER);
  });
  build.sections.push({ entry: log.count, row: build.kind.length, met: new Set(), quiet: true });
  const troubles = [0, 0, 0];                                  // how many rows have none, amber, red
  for (const level of build.trouble) troubles[level]++;
  return { ...build, count: build.kind.length, troubles, starts: build.sections.map(section => section.entry) };
}

function countCode(counts, code, e) {
  if (!counts.has(code)) counts.set(code, { count: 0, e });
  counts.get(code).count++;
}

const isBadEvent = code => code === DIED || code === UNSETTLED || code === LOST;

/** `?` or `!` of a line of `watch`, else nothing. */
function remarkAt(place) {
  const found = log.text[log.text.indexOf(' ', place) + 1];
  return found === '?' || found === '!' ? found : '';
}

const isPackets = row => rows.kind[row] >= EXCHANGE && rows.kind[row] <= ANSWER;
const isRun = row => rows.kind[row] === RUN || rows.kind[row] === FLOW;
/** A flow that shares its entries with others: they are in the row of its run. */
const isPartOfRun = row => rows.kind[row] === FLOW && !rows.runs[row].cycles;
/** Whether a row is one of entries, not of what is between them. */
const hasEntry = row => ![TOP, GAP, LINE].includes(rows.kind[row]) && rows.first[row] < log.count;
const lastResets = () => rows.sections.length - 2;

/** The request of a row of packets, -1 if none stands; of other rows their first entry. */
function requestOf(row) {
  return rows.kind[row] === ANSWER ? rows.partner[rows.first[row]] : rows.first[row];
}

/** Which kind of rows a filter names. */
function classOf(row) {
  if (isPackets(row)) return toneOf(requestOf(row) >= 0 ? requestOf(row) : rows.first[row]);
  if (isRun(row)) return 'stream';
  switch (rows.kind[row]) {
    case HAPPENS: return log.kind[rows.first[row]] === SHOWN ? 'shown' : 'event';
    case GAP: return 'gap';
    case LINE: return 'script';
    default: return '';
  }
}

/** The last entry up to which all has happened when a row is over. */
function momentOf(row) {
  if (rows.kind[row] === LINE) return log.between.entries[rows.first[row]] - 1;
  const last = rows.kind[row] === GAP ? rows.first[row] - 1 : Math.max(rows.first[row], rows.last[row]);
  return Math.min(log.count - 1, last);
}

function cycleOf(row) {
  const e = rows.kind[row] === LINE ? log.between.entries[rows.first[row]] : rows.first[row];
  return log.count ? log.cycle[clamp(e, 0, log.count - 1)] : 0;
}

const sectionAt = entry => clamp(lastUpTo(rows.starts, entry), 0, lastResets());

// Buses: the nodes behind a bus reset, their tree, their names, and which controllers live.
// Others call `busOf`, `deviceName`, `nodeName`, `idName`, `named`, `lifeAt`; `readNames` once.

let names = [];                                                // of devices, if the page is of a script
let allNodes = false;                                          // a column also for nodes that take no part
const buses = new Map(), epochs = new Map();

function readNames() {
  names = log.between.places.map(place => /^> *\d+ device ([a-z][a-z0-9]{0,15}) /.exec(lineAt(place))).filter(Boolean)
    .map(found => found[1]);
}

function showAllNodes(all) {
  allNodes = all;
  buses.clear();
}

/** The bus of a section. `shown` are the nodes that have a column, `place` says which, `whole` that all have. */
function busOf(section) {
  if (buses.has(section)) return buses.get(section);
  if (buses.size > 400) buses.clear();
  const { entry, met } = rows.sections[section];
  const bus = busOfReset(entry >= 0 && entry < log.count ? objectOf(entry) : {});
  const everyNode = bus.nodes.length <= 8 || allNodes, shown = [];
  for (let n = 0; n < MOST_NODES; n++) if (met.has(LOCAL_BUS + n) || (everyNode && n < bus.nodes.length)) shown.push(n);
  const place = new Map(shown.map((n, i) => [n, i])), whole = bus.nodes.every((_, n) => place.has(n));
  const made = { ...bus, section, shown, place, whole };
  buses.set(section, made);
  return made;
}

const listOf = x => Array.isArray(x) ? x.filter(Boolean) : [];
const upTo = (x, most) => Number.isInteger(x) && x >= 0 && x <= most ? x : null;

/** A reset entry's own words, damaged or not. */
function busOfReset(reset) {
  const nodes = listOf(reset.nodes).slice(0, MOST_NODES).map(node => ({
    device: upTo(node.device, NONE), kind: upTo(node.device_kind, 3) || 0, speed: 0, ports: [],
  }));
  for (const packet of listOf(reset.self_ids)) {
    const node = nodes[upTo(packet.phy_id, MOST_NODES)];
    if (!node) continue;
    if (!packet.extended) node.speed = upTo(packet.scode, 2) || 0;
    node.ports.push(...listOf(packet.port_status));
  }
  const [manager, root, initiator] = [reset.manager, reset.root, reset.initiator].map(node => upTo(node, MOST_NODES));
  return { nodes, manager, root, initiator, tree: treeOf(nodes) };
}

/** Parents and depths; nothing if the self-ID packets make no tree. Nodes are numbered children first. */
function treeOf(nodes) {
  const parent = nodes.map(() => -1), loose = [], last = nodes.length - 1;
  for (let n = 0; n <= last; n++) {
    const children = nodes[n].ports.filter(port => port === 3).length,
      up = nodes[n].ports.filter(port => port === 2).length;
    if (children > loose.length || up !== (n === last ? 0 : 1)) return null;
    for (const child of loose.splice(loose.length - children)) parent[child] = n;
    loose.push(n);
  }
  if (loose.length !== 1) return null;
  const depth = nodes.map(() => 0);
  for (let n = last - 1; n >= 0; n--) depth[n] = depth[parent[n]] + 1;
  return { parent, depth, deepest: Math.max(0, ...depth) };
}

function treeText(bus) {
  if (!bus.tree) return 'the self-ID packets make no tree';
  const part = parent => parent < 0 ? ' is the root' : ' is a child of ' + nodeName(bus, parent);
  return 'the tree: ' + bus.tree.parent.map((parent, n) => nodeName(bus, n) + part(parent)).join(', ');
}

const deviceName = (device, kind) => names[device] || DEVICE_KINDS[kind] + ' ' + device;

function nodeName(bus, node) {
  const found = bus.nodes[node];
  return found ? deviceName(found.device, found.kind) : node === null ? 'none' : 'node ' + node;
}

function idName(bus, id) {
  if (id === BROADCAST) return 'all';
  return id >= LOCAL_BUS ? nodeName(bus, id - LOCAL_BUS) : 'node_ID ' + id.toString(16);
}

/** One name for one device: `device 1` of explain, `deck 1` of holders and `node 2` of watch become the same. */
function named(text, bus) {
  return text.replace(/\b(device|deck|camcorder|computer|relay|node) (\d+)\b/g, (whole, word, number) => {
    if (word === 'node') return nodeName(bus, Number(number));
    const node = bus.nodes.find(one => one.device === Number(number));
    return node ? deviceName(node.device, node.kind) : names[number] || whole;
  });
}

/** The node of a device, -1 if there is none. */
const nodeOf = (bus, device) => bus.nodes.findIndex(node => node.device === device);

function epochOf(section) {
  if (!epochs.has(section)) {
    const found = /epoch (\d+)/.exec(explained(rows.sections[section].entry).slice(0, 60));
    epochs.set(section, found ? found[1] : String(section));
  }
  return epochs.get(section);
}

const sectionTitle = section => 'Bus reset ' + epochOf(section);

function sectionWords(section) {
  const bus = busOf(section), cycle = log.cycle[rows.sections[section].entry], first = section < 2;
  const old = first ? [] : busOf(section - 1).nodes, devices = nodes => new Set(nodes.map(node => node.device));
  const was = devices(old), is = devices(bus.nodes);
  const list = (title, nodes) => !nodes.length ? '' : '; ' + title + ' '
    + (nodes.length > 4 ? plural(nodes.length, 'device')
      : nodes.map(node => deviceName(node.device, node.kind)).join(', '));
  return 'cycle ' + commas(cycle) + ' \u00b7 ' + seconds(cycle) + ' \u00b7 ' + plural(bus.nodes.length, 'node')
    + ', begun by ' + nodeName(bus, bus.initiator) + '; root ' + nodeName(bus, bus.root)
    + '; resource manager ' + nodeName(bus, bus.manager)
    + list('joined:', first ? [] : bus.nodes.filter(node => !was.has(node.device)))
    + list('gone:', old.filter(node => !is.has(node.device)))
    + (bus.tree ? '' : '; the self-ID packets make no tree');
}

/** Events by which a controller is dead, lives again, or waits in vain. */
let lifeEvents = [];

function readLife() {
  lifeEvents = [];
  for (let e = 0; e < log.count; e++) {
    if (log.kind[e] === EVENT && [DIED, STARTED, LOST].includes(log.code[e])) lifeEvents.push(e);
  }
}

function lifeAt(entry) {
  const dead = new Set(), deaf = new Set(), reset = rows.sections[sectionAt(entry)].entry;
  for (const e of lifeEvents) {
    if (e > entry) break;
    const device = log.from[e];
    if (log.code[e] === DIED) dead.add(device); else if (log.code[e] === STARTED) dead.delete(device);
    else if (e > reset) deaf.add(device);
  }
  return { dead, deaf };
}

// Holders: what `holders` says, as states. `account.js` uses it.

const HELD_DEED = /^ *\d+ \S+ \S+ (takes|gives back|reclaims|connects|adds|leaves) /;

/** What `holders` says of the log as a whole: its last line, where it stops, and which locks it has not judged. */
function endOfHolders() {
  const judged = closingLine('judged'), ending = log.ends.get('holders'), note = ending ? ending.note : '';
  const [, notJudged = ''] = /, not judged (\d+ locks?) with labels other than 0/.exec(judged + note) || [];
  return { judged, stopped: note.replace(/, not judged .*/, ''), notJudged };
}

function closingLine(word) {
  const place = log.closing.find(at => log.text.startsWith(word, at + 1));
  return place === undefined ? '' : lineAt(place + 1);
}

/** The entries in which `holders` saw a swap, and the channels that it names. Other deeds name none that is new. */
function readHolders() {
  const swaps = new Set(), channels = new Set();
  log.held.places.forEach((place, i) => {
    const line = lineAt(place), [deed, verb] = HELD_DEED.exec(line) || ['', ''];
    if (deed) swaps.add(log.held.entries[i]);
    if (deed && verb !== 'takes' && verb !== 'reclaims') return;
    for (const [, channel] of line.slice(line.indexOf(' left: ')).matchAll(/ (\d+):/g)) channels.add(Number(channel));
  });
  return { swaps, channels };
}

/** The state after a line of `holders`: `.. 2403 left: 5:deck 1 2512 pending, 0:deck 2`. */
function heldState(line) {
  const [, left, list] = / (\d+) left(?:: (.*))?$/.exec(line) || ['', '0', ''];
  const channels = (list || '').split(', ').filter(Boolean).map(item => {
    const [, channel, who, units, how] = /^(\d+):(\S+ \d+)(?: (\d+))?(?: (\S+))?$/.exec(item)
      || [null, -1, item, 0, ''];
    return { channel: Number(channel), who, units: Number(units || 0), how: how || 'connected' };
  });
  return { left: Number(left), channels: channels.filter(held => isChannel(held.channel)) };
}

const isChannel = channel => channel >= 0 && channel < CHANNELS;

// Watching: what `watch` says, as states. `account.js` uses it.

const CHECK = 64;                                              // so many lines of `watch` are read again at most
const WATCHED_DEED = /^(node\S* \S+) (takes|gives back|connects|disconnects|changes) (.*)$/;

const nothingKnown = () => ({ left: null, channels: new Map(), plugs: new Map() });
const copyOf = state => ({ left: state.left, channels: new Map(state.channels), plugs: new Map(state.plugs) });

/** One pass over `watch`: how many swaps it saw that `holders` did not, which channels occur, states to go on from. */
function readWatch(swaps) {
  const words = i => withoutCycle(lineAt(log.watched.places[i])), marks = [], now = nothingKnown(), occur = new Set();
  let missed = 0;
  for (let i = 0; i < log.watched.places.length; i++) {
    if (i % CHECK === 0) marks.push(copyOf(now));
    const { isSwap, taken } = learn(now, words(i));
    if (isSwap && !swaps.has(log.watched.entries[i])) missed++;
    for (const channel of taken) occur.add(channel);
  }
  const at = keepLatest(i => {
    const state = copyOf(marks[Math.floor(i / CHECK)]);
    for (let j = i - i % CHECK; j <= i; j++) learn(state, words(j));
    return { ...state, channels: [...state.channels.values()].sort((a, b) => a.channel - b.channel) };
  });
  return { missed, occur, state: i => i < 0 ? { ...nothingKnown(), channels: [] } : at(i) };
}

const LEARNT = { isSwap: false, taken: [] };                   // of a line that is no swap and takes no channel

/** What a line of `watch` says changes what is known. Answers whether it is a swap, and the channels that it takes. */
function learn(state, words) {
  const deed = WATCHED_DEED.exec(words);
  if (deed) return { isSwap: true, taken: learnDeed(state, deed[1], deed[2], deed[3]) };
  if (words.startsWith('bus reset')) Object.assign(state, nothingKnown(), { left: ALL_UNITS });
  else if (words.startsWith('? CHANNELS_AVAILABLE')) return { isSwap: false, taken: learnUnseen(state, words) };
  else if (words.startsWith('?')) {
    const units = /^\? BANDWIDTH_AVAILABLE of node \d+ is ([0-9a-f]{8})/.exec(words);
    if (units) state.left = parseInt(units[1], 16);
  }
  return LEARNT;
}

function learnDeed(state, who, verb, what) {
  const [, channel] = /^channel (\d+)/.exec(what) || [];
  if (channel && verb === 'takes') return hold(state, Number(channel), who, 'taken');
  if (channel) state.channels.delete(Number(channel));
  else if (verb === 'takes' || verb === 'gives back') {
    const left = /, (\d+) left$/.exec(what);
    if (left) state.left = Number(left[1]);
  } else return learnPlug(state, verb === 'connects', what);
  return [];
}

/** A plug that is connected, or no longer; what changes otherwise leaves who has its channel. */
function learnPlug(state, connects, what) {
  const found = /^([io])(PCR\[\d+\] of (node \d+)) (?:on|from) channel (\d+)/.exec(what);
  if (!found) return [];
  const [, way, plug, node, number] = found, channel = Number(number);
  if (connects) state.plugs.set(way + plug, channel); else state.plugs.delete(way + plug);
  if (way === 'i' || !(connects || state.channels.has(channel))) return [];
  return hold(state, channel, node, connects ? 'connected' : 'taken');
}

function learnUnseen(state, words) {
  const list = pattern => ((pattern.exec(words) || ['', ''])[1].match(/\d+/g) || []).map(Number);
  for (const channel of list(/channels given back((?: \d+)+)/)) state.channels.delete(channel);
  return list(/channels taken((?: \d+)+)/).flatMap(
    channel => hold(state, channel, 'nobody was seen to take it', 'unseen-taken'));
}

function hold(state, channel, who, how) {
  if (!isChannel(channel)) return [];
  state.channels.set(channel, { channel, who, units: 0, how });
  return [channel];
}

// Account: who holds which channel and how many units, after each entry: by `holders` if it can vouch for all that
// `watch` saw, else by `watch`. Others call `makeAccount` once, then `stateAt`, `plugsAt`, `heldText`.

/** @typedef {{ channel: number, who: string, units: number, how: string }} Held */
/** @typedef {{ left: number | null, channels: Held[], plugs?: Map<string, number> }} State */

/** @type {ReturnType<typeof makeAccount>} */
let account;

function makeAccount() {
  const end = endOfHolders(), { swaps, channels } = readHolders(), watched = readWatch(swaps);
  const judgedSome = end.judged ? !end.judged.startsWith('judged nothing') : swaps.size > 0;
  const byHolders = Boolean(!end.stopped && !end.notJudged && !watched.missed && judgedSome);
  const states = keepLatest(i => heldState(lineAt(log.held.places[i])));
  for (const channel of watched.occur) channels.add(channel);
  for (const run of rows.runs) if (run && run.channel !== undefined) channels.add(run.channel);
  return {
    ...end, byHolders, watched, seen: closingLine('resets '),
    lanes: [...channels].filter(isChannel).sort((a, b) => a - b),  // channels that occur
    entries: byHolders ? log.held.entries : log.watched.entries,
    /** @type {(line: number) => State} */
    state: byHolders ? i => i < 0 ? { left: ALL_UNITS, channels: [] } : states(i) : watched.state,
  };
}

function keepLatest(make) {
  const kept = new Map();
  return key => {
    if (kept.size > 2000) kept.clear();
    if (!kept.has(key)) kept.set(key, make(key));
    return kept.get(key);
  };
}

/** @returns {State} what is held when an entry is over */
const stateAt = entry => account.state(lastUpTo(account.entries, entry));

/** Which plugs are connected, and on which channel, as `watch` saw it: `oPCR[0] of node 1`. */
const plugsAt = entry => account.watched.state(lastUpTo(log.watched.entries, entry)).plugs;
const isOutput = plug => plug[0] === 'o';
const nodeOfPlug = plug => Number(/\d+$/.exec(plug)[0]);

const howText = how => how === 'unseen-taken' ? 'taken unseen' : how;

function heldText(state, bus) {
  const list = state.channels.map(held => 'channel ' + held.channel + ' ' + named(held.who, bus)
    + (held.units ? ' ' + plural(held.units, 'unit') : '') + ' ' + howText(held.how));
  const units = state.left === null ? '' : '; ' + state.left + ' of ' + ALL_UNITS + ' units left';
  return (list.join(', ') || 'no channel') + units;
}

/** What a row changes, in words: `5 deck 1`, `0 free`, `2659 left`. */
function changesOf(row, bus) {
  const was = stateAt(rows.first[row] - 1), now = stateAt(rows.last[row]);
  if (was === now) return [];
  const find = (state, channel) => state.channels.find(held => held.channel === channel);
  const same = (a, b) => a && b ? a.who === b.who && a.how === b.how : a === b;
  const text = held => named(held.who, bus)
    + (['connected', 'taken'].includes(held.how) ? '' : ' ' + howText(held.how));
  const parts = [];
  for (const channel of account.lanes) {
    const before = find(was, channel), after = find(now, channel);
    if (!same(before, after)) parts.push(channel + ' ' + (after ? text(after) : 'free'));
  }
  return !parts.length && was.left !== now.left ? [now.left + ' left'] : parts;
}

// Phrases: the parts of a line of `explain`, so that what is new comes first. Texts alone; `words.js` calls `asked`
// and `answered`.

const VERBS = {
  read_quadlet_request: 'read', read_block_request: 'read', write_quadlet_request: 'write',
    write_block_request: 'write',
};

/** The parts of a line of a packet: `8000 node 1 to node 0 label 3 lock_request ..`. */
function packetWords(line) {
  const at = line.indexOf(' label '), found = /^ label (\d+) (\w+) ?(.*)$/.exec(at < 0 ? '' : line.slice(at));
  return found ? { label: Number(found[1]), name: found[2], rest: found[3] } : { label: 0, name: '', rest: line };
}

/** What is asked, as { verb, place, words, more, label }: words come first, more is dim. */
function asked(line) {
  const { label, name, rest } = packetWords(line);
  let found;
  if ((found = /^compare_swap (offset \w+|\S+) (\w+) to (\w+)(?:, )?(.*)$/.exec(rest))) {
    const [, place, old, next, words] = found;
    return { verb: place === 'BUS_MANAGER_ID' ? 'bid' : 'swap', place, words, more: old + ' \u2192 ' + next, label };
  }
  if (name === 'lock_request' && (found = /^(\w+) (offset \w+|\S+) ?(.*)$/.exec(rest))) {
    return { verb: 'lock', place: found[2], words: found[1], more: found[3], label };
  }
  if ((found = /^(FCP_COMMAND|FCP_RESPONSE) AV\/C (.*)$/.exec(rest))) {
    return { verb: 'AV/C', place: '', words: found[2], more: found[1] === 'FCP_COMMAND' ? 'command' : 'response',
      label };
  }
  found = /^(offset \w+|\S+) ?(.*)$/.exec(rest) || [null, rest, ''];
  return { verb: VERBS[name] || name.replace('_request', ''), place: found[1], words: '', more: found[2], label };
}

/** What is answered, as { sign, words, more }: sign `yes`, `no`, `hm` or nothing. */
function answered(line, place) {
  const rest = packetWords(line).rest.replace(/,? ?no request stands$/, '');
  const [, code, given] = /^(rcode \d+|\w+),? ?(.*)$/.exec(rest) || [null, '', ''];
  if (code !== 'complete') return { sign: code && 'no', words: code.replace(/_/g, ' '), more: '' };
  let value = given.replace(/^(mask_swap|compare_swap|fetch_add|little_add|bounded_add|wrap_add) ?/, '');
  if (place && value.startsWith(place)) value = value.slice(place.length).trim();
  if (value.includes(', swap made')) return { sign: 'yes', words: 'made', more: '' };
  const other = /^(\w+), no swap(?:, )?(.*)$/.exec(value);
  if (other) return { sign: 'hm', words: 'not made', more: 'it is ' + other[1] + (other[2] ? ', ' + other[2] : '') };
  return { sign: '', words: '', more: value };
}

/** The format of a packet of a stream, without its SYT. */
function formatOf(e) {
  const line = explained(e), at = line.indexOf(' DBC ');
  const found = /^ DBC \d+ (.*) (?:block|empty)$/.exec(at < 0 ? '' : line.slice(at));
  return found ? found[1].replace(/ SYT \w+/, '') : '';
}

/** Why `holders` stopped. */
const HOLDERS_FAULTS = {
  NoNode: 'a packet of a node that the latest bus reset has not',
  Overlap: 'a request while another one of its node is outstanding',
  Orphan: 'a response without its request',
  NotAllowed: 'a complete answer where no such register is',
  WrongWord: 'a word that is not that of the account',
  NoMove: 'a swap that is no move of the account',
  NoEvent: 'a second is over that did not run',
};

// Words: what a row says, as elements and as text. Others call `putWords`, `wordsOf`, `textOf`, `spoken`.

const SIGNS = { yes: '\u2713 ', no: '\u2717 ', hm: '\u2717 ', '': '' };
const signOf = trouble => trouble === AMBER ? 'hm' : 'no';

/** The words of a row into a box. */
function putWords(box, row) {
  const e = rows.first[row], bus = busOf(rows.section[row]);
  let more = '';
  switch (rows.kind[row]) {
    case EXCHANGE: case REQUEST: case ANSWER: more = putPackets(box, row, bus); break;
    case RUN: putCycles(box, rows.runs[row], bus); break;
    case FLOW: putFlow(box, rows.runs[row], bus); break;
    case HAPPENS: putHappening(box, row, bus); break;
    case GAP: putGap(box, log.cycle[e] - log.cycle[e - 1]); break;
    case LINE: putLine(box, e); break;
    case STOP: putStop(box); break;
    case FINISH: putFinish(box, e); break;
  }
  if (rows.why.has(row)) put(box, signOf(rows.trouble[row]), SIGNS.no + rows.why.get(row));
  for (const words of remarks(row)) {
    put(box, words[0] === '!' ? 'no' : 'hm', words[0] + ' ' + named(words.slice(2), bus));
  }
  put(box, 'word', more);
}

/** A row of packets; answers what is to come last. */
function putPackets(box, row, bus) {
  const kind = rows.kind[row], request = requestOf(row), e = request >= 0 ? request : rows.first[row];
  const what = request >= 0 ? asked(explained(request))
    : { verb: 'answer', place: '', words: '', more: '', label: log.label[e] };
  const arrow = { [EXCHANGE]: ' \u21c4 ', [REQUEST]: ' \u2192 ', [ANSWER]: ' \u2190 ' }[kind];
  const needsNames = bus.shown.length > 24 || !bus.place.has(log.from[e] - LOCAL_BUS);
  if (request >= 0 && needsNames) put(box, 'quiet', idName(bus, log.from[e]) + arrow + idName(bus, log.to[e]));
  put(box, 'verb', what.verb);
  put(box, 'place', smallScreen ? what.place.replace('_AVAILABLE', '') : what.place, 'b');
  put(box, '', named(what.words, bus), what.place ? 'span' : 'b');
  if (kind === REQUEST && rows.partner[e] >= 0) put(box, 'hm', 'waits');
  if (kind !== REQUEST) putAnswer(box, row, what.place, bus);
  if (kind === ANSWER) { put(box, 'quiet', request >= 0 ? 'answers ' + request : ''); return ''; }
  const dim = [kind === EXCHANGE && what.verb === 'read' ? '' : what.more, what.label ? 'label ' + what.label : ''];
  return dim.filter(Boolean).map(part => '\u00b7 ' + part).join(' ');
}

function putAnswer(box, row, place, bus) {
  const came = answered(explained(rows.kind[row] === EXCHANGE ? rows.last[row] : rows.first[row]), place);
  put(box, came.sign, SIGNS[came.sign] + came.words);
  put(box, came.sign === 'hm' ? '' : 'word', named(came.more, bus));
}

const fromTo = (first, last) => commas(first) + (first === last ? '' : ' to ' + commas(last));

function putCycles(box, run, bus) {
  put(box, 'verb', run.first === run.last ? 'cycle' : 'cycles');
  put(box, '', fromTo(run.first, run.last), 'b');
  put(box, 'quiet', run.starts ? plural(run.starts, 'cycle start') + ' of ' + idName(bus, run.source)
    : 'no cycle start');
}

function putFlow(box, flow, bus) {
  put(box, 'verb', 'stream');
  put(box, '', 'channel ' + flow.channel, 'b');
  if (flow.cycles) put(box, '', (flow.cycles[0] === flow.cycles[1] ? 'in cycle ' : 'in cycles ')
    + fromTo(...flow.cycles));
  put(box, '', 'of ' + nodeName(bus, flow.sid) + ': ' + plural(flow.blocks, 'block') + ', ' + flow.empty + ' empty');
  if (flow.gaps) put(box, 'no', SIGNS.no + plural(flow.gaps, 'gap') + ' in DBC');
  if (flow.missing) {
    if (flow.pause <= SHORT_PAUSE) put(box, 'hm', SIGNS.hm + plural(flow.missing, 'block')
      + ' missing in the pause before');
    else put(box, 'quiet', 'DBC went on in the pause before');
  }
  put(box, 'quiet', formatOf(flow.entry) + ', DBC ' + flow.first + ', then ' + flow.due + ' due');
}

function putHappening(box, row, bus) {
  const e = rows.first[row], words = explained(e).replace(/^\d+ /, ''), level = signOf(rows.trouble[row]);
  let found;
  if ((found = /^event (\S+)(?: (device \d+))?: (.*)$/.exec(words))) {
    const [, name, device, what] = found;
    put(box, '', device && named(device, bus), 'b');
    put(box, isBadEvent(log.code[e]) ? 'no' : '', what, device ? 'span' : 'b');
    put(box, 'quiet', 'event ' + name);
  } else if ((found = /^outcome (\S+) (device \d+) slot (\d+)(?:, )?(.*)$/.exec(words))) {
    const [, name, device, slot, value] = found, result = log.code[e] <= RESTORED ? 'yes' : level;
    put(box, '', named(device, bus), 'b');
    put(box, result, SIGNS[result] + name);
    put(box, '', named(value, bus));
    put(box, 'quiet', 'outcome of slot ' + slot);
  } else if ((found = /^shown (device \d+) (\S+(?: \d{12})?) (\w+)(?:, )?(.*)$/.exec(words))) {
    const [, device, register, word, meaning] = found;
    put(box, 'verb', 'shown');
    put(box, '', named(device, bus) + ' ' + register, 'b');
    put(box, '', meaning || word);
    put(box, 'word', meaning && word);
  } else put(box, '', log.kind[e] === ODD ? words : named(words, bus));
}

function putGap(box, cycles) {
  put(box, '', commas(cycles) + ' cycles pass, ' + duration(cycles));
}

/** A line of the script, or an odd one, as it stands. */
function putLine(box, line) {
  const whole = lineAt(log.between.places[line]), [, number, text] = /^> *(\d+) (.*)$/.exec(whole) || [null, '', whole];
  put(box, number ? 'quiet' : 'no', number ? 'line ' + number : 'not understood');
  put(box, text.startsWith('#') ? 'comment' : '', text);
}

function putStop(box) {
  put(box, 'hm', 'holders stops here');
  put(box, '', account.stopped);
  put(box, 'quiet', HOLDERS_FAULTS[(/: (\w+)/.exec(account.stopped) || [])[1]]);
}

function putFinish(box, e) {
  if (e < log.count) put(box, '', 'end of the log', 'b'); else put(box, 'no', SIGNS.no + endText());
}

function endText() {
  const end = log.ends.get('log');
  if (!end) return 'The page ends here, and does not say how the log goes on: it was not written to its end';
  return 'The log ends here: ' + end.note + (end.status === 3 ? ': the script is refused from this line on' : '');
}

/** What `watch` remarks of a row: its lines with `?` or `!`. */
function remarks(row) {
  if (!hasEntry(row) || rows.kind[row] === STOP || isPartOfRun(row)) return [];
  return linesOf(log.watched, rows.first[row], rows.last[row]).map(withoutCycle).filter(words => /^[?!]/.test(words));
}

function wordsOf(row) {
  const box = element('div');
  putWords(box, row);
  return [...box.children].map(part => part.textContent).join(' ');
}

/** What a search looks at: the words of the entries by all accounts. */
function textOf(row) {
  const first = rows.first[row], last = rows.last[row], kind = rows.kind[row];
  if (kind === TOP) return document.title;
  if (!hasEntry(row) || kind === STOP || isPartOfRun(row)) return (kind === LINE ? 'script ' : '') + wordsOf(row);
  const parts = [explained(first)];
  if (kind === EXCHANGE) parts.push(explained(last));
  if (isRun(row)) parts.push(wordsOf(row));
  parts.push(...linesOf(log.held, first, last), ...linesOf(log.watched, first, last));
  if (rows.why.has(row)) parts.push(rows.why.get(row));
  return parts.join('\n');
}

/** A row as a screen reader says it. */
function spoken(row) {
  const section = rows.section[row], bus = busOf(section), e = rows.first[row];
  if (rows.kind[row] === SECTION) return sectionTitle(section) + ', ' + sectionWords(section);
  const entry = hasEntry(row) ? 'entry ' + e + ', cycle ' + log.cycle[e] + ': ' : '';
  if (!isPackets(row)) return entry + wordsOf(row);
  const now = heldText(stateAt(rows.last[row]), bus), was = heldText(stateAt(e - 1), bus);
  const nodes = idName(bus, log.from[e]) + ' to ' + idName(bus, log.to[e]) + ': ';
  return entry + nodes + wordsOf(row) + (now === was ? '' : '. Now held: ' + now);
}

// Layout: which rows are shown, and where: columns of nodes at the left, the strip of units and channels at the right.
// Numbers alone; `view.js` draws what is in sight. Others call `layout` and `filter`.

const ROOM_OF_WORDS = 400;

/** What a user has chosen to see. */
const filter = {
  onlyTrouble: false, hidden: new Set(), device: -1, channel: -1,

  reset() { Object.assign(this, { onlyTrouble: false, hidden: new Set(), device: -1, channel: -1 }); },

  /** Whether rows of a kind are chosen, so that bus resets without any and what is between entries go. */
  narrows() { return this.onlyTrouble || this.device >= 0 || this.channel >= 0; },

  passes(row) {
    const kind = rows.kind[row];
    if (kind === TOP) return true;
    if (this.onlyTrouble && !rows.trouble[row]) return false;
    if (kind === FINISH || kind === STOP) return true;
    if ((kind === GAP || kind === LINE) && this.narrows() && !rows.trouble[row]) return false;
    return !(this.hidden.size && this.hidden.has(classOf(row))) && this.passesChoices(row);
  },

  passesChoices(row) {
    return (this.device < 0 || isOfDevice(row, this.device)) && (this.channel < 0 || isOfChannel(row, this.channel));
  },
};

function isOfDevice(row, device) {
  const e = rows.first[row], kind = rows.kind[row], node = nodeOf(busOf(rows.section[row]), device);
  if (kind === GAP || kind === LINE) return false;
  if (kind === FLOW) return node === rows.runs[row].sid;
  if (kind === RUN) return rows.runs[row].source - LOCAL_BUS === node;
  if (kind === HAPPENS) return log.from[e] === device;
  return node >= 0 && (log.from[e] - LOCAL_BUS === node || log.to[e] - LOCAL_BUS === node);
}

function isOfChannel(row, channel) {
  const kind = rows.kind[row];
  if (kind === FLOW) return rows.runs[row].channel === channel;
  if (kind === GAP || kind === LINE || kind === RUN) return false;
  const held = entry => JSON.stringify(stateAt(entry).channels.find(one => one.channel === channel));
  return held(rows.first[row] - 1) !== held(momentOf(row))
    || new RegExp('\\bchannel ' + channel + '\\b').test(textOf(row));
}

const layout = {
  /** The rows that are shown, and how far from the top each is. */
  shown: [], tops: new Float64Array(1), total: 0, tall: 0,
  unfolded: new Set(), topHeight: 120, pitches: new Map(),
  width: 0, rowHeight: 26, gutter: 120, strip: { units: 60, lane: 16, left: 8, width: 0 },

  measure(width) {
    const narrow = smallScreen = window.innerWidth <= SMALL_SCREEN;
    const lanes = account.lanes.length, each = Math.max(1, lanes);
    const units = narrow ? 0 : 60, lane = narrow ? clamp(60 / each, 4, 12) : clamp(240 / each, 6, 20);
    Object.assign(this, { width, rowHeight: narrow ? 44 : 26, gutter: narrow ? 46 : 120, pitches: new Map() });
    this.strip = { units, lane, left: 8, width: 8 + units + 10 + lane * lanes + 12 };
  },

  /** The middle of a row's drawing. */
  middle: 13,

  /** The distance of two columns: as wide as leaves room for words. */
  pitch(bus) {
    const columns = Math.max(1, bus.shown.length);
    if (!this.pitches.has(columns)) {
      const room = this.width - this.gutter - this.strip.width - (smallScreen ? 0 : ROOM_OF_WORDS);
      const widest = smallScreen ? 64 : 84, least = smallScreen ? 10 : 18;
      this.pitches.set(columns, clamp(Math.floor(room / columns), least, widest));
    }
    return this.pitches.get(columns);
  },

  columns(bus) { return Math.max(smallScreen ? 60 : 100, this.pitch(bus) * bus.shown.length + 14); },

  /** The least width of a row: more columns than there is room for make the view scroll sidewards. */
  leastWidth(row) {
    return this.gutter + this.columns(busOf(rows.section[row])) + (smallScreen ? 0 : 240) + this.strip.width;
  },

  /** Where the line of a node is; a node without one, as of a broadcast, is at the right edge. */
  nodeX(bus, node) {
    const i = bus.place.get(node);
    return i === undefined ? this.columns(bus) - 5 : (i + .5) * this.pitch(bus);
  },

  laneX(i) { return this.strip.left + this.strip.units + 10 + this.strip.lane * (i + .5); },

  treeStep(bus) { return clamp(Math.floor(170 / Math.max(1, bus.tree ? bus.tree.deepest : 1)), 8, 34); },
  treeHeight(bus) { return 28 + this.treeStep(bus) * (bus.tree ? bus.tree.deepest : 0); },
  treeTop() { return smallScreen ? 84 : 32; },
  /** The distance of two nodes in a tree that has its own width: as narrow as it must be. */
  treePitch(bus) {
    const room = this.width - this.gutter - 40 - this.strip.width;
    return clamp(Math.floor(room / Math.max(1, bus.nodes.length)), 4, 64);
  },

  isFolded(row) {
    const section = rows.section[row], next = rows.sections[section + 1];
    if (this.unfolded.has(row)) return false;
    return filter.onlyTrouble || (rows.sections[section].quiet && next.entry < log.count);
  },

  fold(row) {
    if (!this.unfolded.delete(row)) this.unfolded.add(row);
  },

  height(row) {
    switch (rows.kind[row]) {
      case TOP: return this.topHeight;
      case SECTION: {
        if (this.isFolded(row)) return 30;
        const bus = busOf(rows.section[row]);
        return this.treeTop() + (smallScreen ? 8 : 2) + this.treeHeight(bus) + (bus.whole ? 34 : 16);
      }
      case GAP: case LINE: return 20;
      default: return this.rowHeight;
    }
  },

  /** Which rows are shown; a bus reset of which the filter leaves nothing is not. */
  choose() {
    const shown = [], narrows = filter.narrows();
    let heading = -1;
    for (let row = 0; row < rows.count; row++) {
      if (rows.kind[row] === SECTION) {
        if (narrows) heading = row; else shown.push(row);
      } else if (filter.passes(row)) {
        if (heading >= 0) shown.push(heading);
        heading = -1;
        shown.push(row);
      }
    }
    this.shown = shown;
  },

  place() {
    this.tops = new Float64Array(this.shown.length + 1);
    this.shown.forEach((row, i) => { this.tops[i + 1] = this.tops[i] + this.height(row); });
    this.total = this.tops[this.shown.length];
    this.tall = Math.min(this.total, TALLEST);
  },

  /** The place of a row among those that are shown, or of the last one before it. */
  indexOf(row) { return lastUpTo(this.shown, row); },
  shows(row) { return this.shown[this.indexOf(row)] === row; },
};

// Drawing: the left part of a row: lines of nodes, arrows of packets, pipes of streams, signs of events.
// `row.js` calls `drawNet`; the key, too, has its arrows from here.

const path = (kind, d) => svg('path', { class: kind, d });
const lineOf = (kind, x1, y1, x2, y2) => path(kind, 'M' + x1 + ' ' + y1 + 'L' + x2 + ' ' + y2);
const arrowHead = (kind, x, y, right) => path('head ' + kind, 'M' + x + ' ' + y + 'l' + (right ? -9 : 9) + ' -4.5v9z');
const cross = (x, y) => path('cross', 'M' + (x - 4.5) + ' ' + (y - 4.5) + 'l9 9m0 -9l-9 9');
const box = (kind, x, y, width, height) => svg('rect', { class: kind, x, y, width, height });
const dot = (kind, cx, cy, r) => svg('circle', { class: kind, cx, cy, r });
const groupOf = (kind, ...parts) => svg('g', { class: kind }, ...parts);

let barsOfBlock = [];                                          // of each 256 rows: the bars in them

function readBars() {
  barsOfBlock = [];
  for (const bar of rows.bars) {
    for (let block = bar.from >> 8; block <= bar.to >> 8; block++) {
      barsOfBlock[block] = barsOfBlock[block] || [];
      barsOfBlock[block].push(bar);
    }
  }
}

function drawNet(row, bus, height) {
  const net = drawing('net', layout.columns(bus), height), kind = rows.kind[row];
  drawLines(net, row, bus, height);
  drawBars(net, row, bus, height);
  if (isPackets(row)) drawPackets(net, row, bus);
  else if (kind === FLOW) drawFlow(net, rows.runs[row], bus);
  else if (kind === HAPPENS) drawSign(net, row, bus);
  else if (kind === GAP) drawGap(net, bus, height);
  return net;
}

/** The lines of the nodes, with the stripes of their plugs. */
function drawLines(net, row, bus, height) {
  const moment = momentOf(row), { dead, deaf } = lifeAt(moment), talk = new Set(), hear = new Set();
  for (const plug of plugsAt(moment).keys()) (isOutput(plug) ? talk : hear).add(nodeOfPlug(plug));
  for (const node of bus.shown) {
    const x = layout.nodeX(bus, node), device = bus.nodes[node] ? bus.nodes[node].device : NONE;
    net.append(lineOf(dead.has(device) ? 'dead' : deaf.has(device) ? 'deaf' : 'life', x, 0, x, height));
    if (talk.has(node)) net.append(box('talks', x + 2, 0, 3, height));
    if (hear.has(node)) net.append(box('hears', x - 5, 0, 3, height));
  }
}

/** Requests that wait, or end without an answer. */
function drawBars(net, row, bus, height) {
  (barsOfBlock[row >> 8] || []).filter(bar => bar.from <= row && row <= bar.to).forEach(bar => {
    const x = layout.nodeX(bus, bar.node) + bar.shift;
    const y1 = bar.from === row ? layout.middle : 0, y2 = bar.to === row && !bar.unanswered ? layout.middle : height;
    net.append(box('waiting ' + bar.tone, x - 3.5, y1, 7, Math.max(0, y2 - y1)));
    if (bar.unanswered && bar.to <= row + 1) net.append(cross(x, height - 6));
  });
}

/** An arrow there and back, from x to far. */
function thereAndBack(x, far, y, result) {
  const way = far > x ? 1 : -1, r = 3 * way;
  const d = 'M' + x + ' ' + (y - 5) + 'H' + (far - r) + 'q' + r + ' 0 ' + r + ' 3v4q0 3 ' + -r + ' 3H' + (x + 8 * way);
  const parts = [path('arrow', d), arrowHead(result, x + way, y + 5, way < 0)];
  return result === 'no' && Math.abs(far - x) > 30 ? [...parts, cross((x + far) / 2, y + 5)] : parts;
}

function oneWay(x, far, y, result, late) {
  const way = far > x ? 1 : -1;
  const parts = [lineOf(late ? 'arrow late' : 'arrow', x, y, far - 7 * way, y),
    arrowHead(result, far - way, y, way > 0)];
  return result === 'no' && Math.abs(far - x) > 30 ? [...parts, cross((x + far) / 2, y)] : parts;
}

function drawPackets(net, row, bus) {
  const e = rows.first[row], kind = rows.kind[row], answer = kind === REQUEST ? -1 : rows.last[row];
  const result = answer < 0 ? '' : resultOf(answer).replace('hm', 'no');
  const from = layout.nodeX(bus, log.from[e] - LOCAL_BUS), to = layout.nodeX(bus, log.to[e] - LOCAL_BUS),
    toSelf = from === to;
  const parts = kind === EXCHANGE ? thereAndBack(from, toSelf ? from + 20 : to, layout.middle, result)
    : kind === REQUEST ? oneWay(from, toSelf ? from + 20 : to, layout.middle, result, false)
      : oneWay(toSelf ? from + 20 : from, to, layout.middle, result, true);
  net.append(groupOf(classOf(row), ...parts));
}

/** A pipe from who talks to those who hear; to the right edge if nobody is known to hear. */
function drawFlow(net, flow, bus) {
  const from = layout.nodeX(bus, flow.sid), y = layout.middle, hears = [];
  for (const [plug, channel] of plugsAt(flow.entry)) {
    if (!isOutput(plug) && channel === flow.channel) hears.push(layout.nodeX(bus, nodeOfPlug(plug)));
  }
  const ends = hears.length ? hears : [layout.columns(bus) - 4], low = Math.min(from, ...ends),
    high = Math.max(from, ...ends);
  const heads = hears.filter(x => x !== from).map(x => arrowHead('', x - (x > from ? 5 : -5), y, x > from));
  net.append(...pipe(low, high, y), dot('dot', from, y, 4), groupOf('stream', ...heads));
}

const pipe = (low, high, y) => ['pipe', 'pipe-in'].map(kind => lineOf(kind, low, y, high, y));

const ICONS = { ok: 'l3 3 5 -6', no: 'm1 -3l6 6m0 -6l-6 6', hm: 'm1 -3l6 6m0 -6l-6 6', note: 'h8' };

/** A sign for an event or an outcome, on the line of its device. */
function drawSign(net, row, bus) {
  const e = rows.first[row], node = nodeOf(bus, log.from[e]);
  if (!bus.place.has(node)) return;
  const x = layout.nodeX(bus, node), y = layout.middle, trouble = rows.trouble[row];
  const level = trouble && log.kind[e] !== SHOWN ? signOf(trouble) : log.kind[e] === OUTCOME ? 'ok' : 'note';
  net.append(dot('icon-' + level, x, y, 7.5), path('icon-line', 'M' + (x - 4) + ' ' + y + ICONS[level]));
}

/** The lines are dotted where cycles pass. */
function drawGap(net, bus, height) {
  net.append(box('blank', 0, 4, layout.columns(bus), height - 8));
  for (const node of bus.shown) {
    for (let y = 6; y < height - 4; y += 4) net.append(box('point', layout.nodeX(bus, node) - .5, y, 1, 1.5));
  }
}

// Nodes: their signs, the heads of columns, and the tree of a bus reset. Others call `sign`, `nodeHead`, `drawTree`.

const SHAPES = [
  'M-9 0a9 9 0 1 0 18 0a9 9 0 1 0 -18 0z', 'M-9 -8h18q2 0 2 2v12q0 2 -2 2h-18q-2 0 -2 -2v-12q0 -2 2 -2z',
  'M-12 -8h15v5l7 -4v14l-7 -4v5h-15z', 'M-11 -9h22v14h-22zM-5 9h10M0 5v4',
];
const NUMBER_AT = [[0, 4], [0, 4], [-4, 4], [0, 2]];

/** A node: its kind by shape, its number in it; the resource manager is filled. */
function sign(bus, node, x, y) {
  const kind = bus.nodes[node] ? bus.nodes[node].kind : 0, [dx, dy] = NUMBER_AT[kind];
  return svg('g', { transform: 'translate(' + x + ' ' + y + ')' },
    path(bus.manager === node ? 'sign manager' : 'sign', SHAPES[kind]),
    svg('text', { class: 'middle', x: dx, y: dy }, node));
}

const textAt = (kind, x, y, words) => svg('text', { class: kind, x, y }, words);
const roles = (bus, node) => [bus.root === node && 'root', bus.manager === node && 'IRM'].filter(Boolean).join(' ');
const ownName = (bus, node) => names[bus.nodes[node].device];

/** The name of a node, and below it its kind, if it has a name of a script, else what it is to the bus. */
function nodeNames(bus, node, x, y, pitch) {
  const { device, kind } = bus.nodes[node], own = ownName(bus, node), fits = Math.floor(pitch / 7.2), texts = [];
  let name = deviceName(device, kind);
  if (pitch < 84) name = name.replace('camcorder', 'camc.').replace('computer', 'comp.');
  if (name.length > fits) name = name.slice(0, Math.max(1, fits - 1)) + '\u2026';
  if (pitch >= 40) texts.push(textAt('name middle', x, y, name));
  if (pitch >= 44) texts.push(textAt('small middle', x, y + 11, own ? DEVICE_KINDS[kind] : roles(bus, node)));
  return texts;
}

function rolesBeside(bus, node, x, y, pitch) {
  const shown = roles(bus, node) && pitch >= 76 && ownName(bus, node);
  return shown ? [textAt('small', x + 15, y + 4, roles(bus, node))] : [];
}

/** The head of a column: sign, name, and all of it in words. */
function nodeHead(bus, node, x, y, pitch) {
  const found = bus.nodes[node];
  if (pitch < 24) return [textAt('small middle', x, y + 4, node)];
  if (!found) return [sign(bus, node, x, y), textAt('small middle', x, y + 22, pitch > 40 ? 'node ' + node : '')];
  const what = ' (' + DEVICE_KINDS[found.kind] + ', device ' + found.device + ')';
  const words = ['node ' + node + ': ' + nodeName(bus, node) + what, roles(bus, node)].filter(Boolean).join(', ');
  return [svg('g', {}, sign(bus, node, x, y), ...nodeNames(bus, node, x, y + 21, pitch),
    ...rolesBeside(bus, node, x, y, pitch), svg('title', {}, words))];
}

/** The tree above the columns: if all nodes have a column, each stands over its own; else it has its own width. */
function drawTree(bus, height) {
  const own = !bus.whole, pitch = own ? layout.treePitch(bus) : layout.pitch(bus), top = layout.treeTop();
  const step = layout.treeStep(bus), { tree, nodes } = bus, all = [...nodes.keys()];
  const width = own ? Math.max(1, pitch * nodes.length) : layout.columns(bus);
  const xOf = n => own ? (n + .5) * pitch : layout.nodeX(bus, n);
  const yOf = n => top + 14 + step * (tree ? tree.depth[n] : 0);
  const at = n => ({ x: xOf(n), y: yOf(n) });
  const net = svg('svg', { class: 'net', role: 'img', height, width }, svg('title', {}, treeText(bus)));
  if (!own) net.append(...all.map(n => lineOf('life', at(n).x, at(n).y, at(n).x, height)));
  const children = all.filter(n => tree && tree.parent[n] >= 0);
  net.append(...children.flatMap(n => cable(bus, n, at(n), at(tree.parent[n]), pitch, step)));
  net.append(...all.flatMap(n => treeNode(bus, n, at(n), pitch)));
  if (!own) {
    for (const n of all) {
      const { x } = at(n);
      net.append(box('blank', x - pitch / 2, height - 30, pitch, 27), ...nodeNames(bus, n, x, height - 19, pitch));
    }
  } else if (pitch >= 13) {
    const y = top + layout.treeHeight(bus) + 2, wide = pitch >= 22;
    net.append(...all.map(n => textAt('small middle', at(n).x, y, wide ? ownName(bus, n) || nodes[n].device : n)));
    net.append(textAt('small end', -8, y, wide ? 'device' : 'node'));
  }
  return net;
}

/** A cable to the parent: the faster, the thicker. */
function cable(bus, n, at, up, pitch, step) {
  const speed = Math.min(bus.nodes[n].speed, bus.nodes[bus.tree.parent[n]].speed), name = 'S' + (100 << speed);
  const title = svg('title', {}, nodeName(bus, n) + ' to ' + nodeName(bus, bus.tree.parent[n]) + ', ' + name);
  const d = 'M' + up.x + ' ' + up.y + 'H' + at.x + 'V' + at.y;
  const drawn = svg('path', { class: 'cable', d, 'stroke-width': 1.5 + speed * 1.2 }, title);
  return pitch >= 44 && step >= 26 ? [drawn, textAt('small', at.x + 4, (up.y + at.y) / 2 + 2, name)] : [drawn];
}

/** A flash stands at the node that began the bus reset. */
function treeNode(bus, n, { x, y }, pitch) {
  const wide = pitch >= 22,
    small = dot(bus.manager === n ? 'sign manager' : 'sign', x, y, clamp(pitch / 2 - .5, 1.5, 4));
  const parts = [wide ? sign(bus, n, x, y) : small, ...rolesBeside(bus, n, x, y, pitch)];
  const flash = 'M' + (x - (wide ? 17 : 6)) + ' ' + (y - 9) + 'l-6 9h4l-2 7 7 -9h-4z';
  if (bus.initiator === n) parts.push(path('icon-no', flash));
  return parts;
}

// The strip at the right of rows: units that are taken, and a lane for each channel that occurs, in the pattern of how
// it is held.
// Others call `drawStrip`, `stripHeads`, `fillPatterns` once.

function drawStrip(state, height, bus) {
  const { units, lane, left, width } = layout.strip, strip = drawing('strip', width, height),
    wide = Math.min(lane - 2, 12);
  strip.append(box('units-room', left, 0, units, height));
  if (units && state.left === null) strip.append(textAt('small', left + 3, Math.min(17, height - 4), '?'));
  else strip.append(box('units', left, 0, units * clamp(1 - state.left / ALL_UNITS, 0, 1), height));
  account.lanes.forEach((_, i) => strip.append(lineOf('lane-line', layout.laneX(i), 0, layout.laneX(i), height)));
  for (const { channel, how } of state.channels) {
    strip.append(box(how, layout.laneX(account.lanes.indexOf(channel)) - wide / 2, -2, wide, height + 4));
  }
  strip.append(svg('title', {}, heldText(state, bus)));
  return strip;
}

/** The dot of a flow on its lane. */
const laneDot = channel => dot('dot', layout.laneX(account.lanes.indexOf(channel)), layout.middle, 4);

function stripHeads(height) {
  const { left, lane, width } = layout.strip, heads = svg('svg', { width, height }), { lanes } = account;
  if (!smallScreen) {
    if (!account.byHolders) heads.append(textAt('small', left, 14, 'by watch'));
    heads.append(textAt('small', left, 32, 'units'), textAt('small', left, 45, 'of ' + ALL_UNITS));
    const title = lanes.length > 3 ? 'channels' : 'ch.';
    if (lanes.length) heads.append(textAt('small', layout.laneX(0) - lane / 2, 32, title));
  }
  lanes.forEach((channel, i) => {
    if (lane >= 11 || i % 4 === 0) heads.append(textAt('small middle', layout.laneX(i), 45, channel));
  });
  return heads;
}

/** The patterns of the lanes; style.css names them. */
function fillPatterns() {
  const defs = svg('defs');
  const pattern = (id, size, ...marks) => {
    const area = { width: size, height: size };
    defs.append(svg('pattern', { id: 'p-' + id, ...area, patternUnits: 'userSpaceOnUse' },
      svg('rect', { ...area, fill: 'var(--bg)' }), ...marks));
  };
  const stroke = (d, colour, width) => svg('path',
    { d, stroke: 'var(--' + colour + ')', 'stroke-width': width, fill: 'none' });
  const slanted = 'M-1 1l2 -2M0 6l6 -6M5 7l2 -2';
  pattern('pending', 6, stroke(slanted, 'warn', 1.8));
  pattern('orphaned', 6, stroke('M0 0l6 6M0 6l6 -6', 'bad', 1.2));
  pattern('continues', 4, stroke('M0 1.2h4', 'hold', 2.2));
  pattern('reclaimable', 6, stroke('M0 1h6', 'hold', 1.2));
  pattern('taken', 6, stroke(slanted, 'hold', 1.8));
  pattern('unseen', 5, svg('circle', { cx: 2.5, cy: 2.5, r: 1.2, fill: 'var(--dim)' }));
  document.body.append(svg('svg', { class: 'unseen', width: 0, height: 0 }, defs));
}

// Summary: the head of the page: what the log amounts to, and who vouches for the strip. Others call `drawTop` and
// `titleOf`.

function titleOf() {
  if (!log.count) return 'A log without entries';
  const nodes = busOf(lastResets()).nodes, own = nodes.map(node => names[node.device]).filter(Boolean);
  const count = kind => nodes.filter(node => node.kind === kind).length;
  const kinds = [3, 1, 2, 0].filter(count).map(kind => plural(count(kind), DEVICE_KINDS[kind])).join(', ');
  const who = own.length && own.length <= 5 && own.length === nodes.length ? own.join(', ') : kinds;
  return 'FireWire: ' + (who || 'packets before any bus reset')
    + (log.cycle[0] ? ', from cycle ' + commas(log.cycle[0]) : '') + ', ' + plural(lastResets(), 'bus reset');
}

function paragraph(into, ...parts) {
  const made = element('p');
  made.append(...parts);
  into.append(made);
  return made;
}

function drawTop(top) {
  top.append(element('h1', '', document.title));
  putEarlyEnd(top);
  putSums(top, rows.sums);
  const list = kind => counted(kind).join(', ') || 'none';
  paragraph(top, 'Outcomes: ' + list(OUTCOME) + '. Events: ' + list(EVENT) + '.');
  if (account.byHolders) putHolders(top); else putWatch(top);
  putTroubles(top);
}

function putEarlyEnd(top) {
  const end = log.ends.get('log');
  if (!end) paragraph(top, element('span', 'no', SIGNS.no + 'The page was not written to its end'));
  else if (end.status) paragraph(top, element('span', 'no', SIGNS.no + 'The log ends early: ' + end.note));
}

function putSums(top, sums) {
  const last = log.count ? log.cycle[log.count - 1] : 0;
  const bad = (count, words) => count ? element('span', 'no', words) : '';
  paragraph(top, element('b', '', plural(log.count, 'entry')),
    ', ' + plural(lastResets(), 'bus reset') + ', up to cycle ' + commas(last) + ', ' + seconds(last) + '. '
    + plural(sums.answered, 'request') + ' answered, ' + sums.between + ' of them with others between: '
    + plural(sums.reads, 'read') + ', ' + plural(sums.made, 'swap') + ' made and ' + sums.notMade + ' not, '
    + sums.refused + ' refused. ' + (sums.unanswered ? '' : 'All answered. '),
    bad(sums.unanswered, commas(sums.unanswered) + ' not answered. '),
    bad(sums.commands, plural(sums.commands, 'AV/C command') + ' without a response.'));
}

/** How often each code of a kind of entries occurs, by its name. */
function counted(kind) {
  const nameOf = e => (/"code_name":"([^"]*)"/.exec(lineAt(log.place[e])) || ['', '?'])[1];
  return [...rows.codes[kind]].sort(([a], [b]) => a - b).map(([, { count, e }]) => commas(count) + ' ' + nameOf(e));
}

function putHolders(top) {
  const held = log.closing.filter(place => log.text[place] === '@').map(place => lineAt(place + 1))
    .filter(words => !words.startsWith('judged'));
  if (account.judged) {
    paragraph(top, element('span', 'yes', '\u2713 holders followed the log to its end: '), account.judged);
  } else {
    const words = 'The strip at the right is what holders says; the log has no end, so it has not summed up.';
    paragraph(top, element('span', 'quiet', words));
  }
  if (!held.length) return;
  const bus = busOf(lastResets());
  paragraph(top, 'At the end: ',
    ...held.slice(0, CHANNELS + 1).map(words => element('span', '', named(words, bus)))).className = 'end';
}

function putWatch(top) {
  const why = whyNotHolders();
  const words = 'The strip at the right is what watch saw, and vouches for nothing that was not seen: ';
  paragraph(top, element('span', 'hm', words), why + '.');
  if (account.seen) paragraph(top, element('span', 'quiet', 'watch: '), account.seen);
  const state = account.state(account.entries.length - 1);
  paragraph(top, 'At the end, as far as it was seen: ' + heldText(state, busOf(lastResets())) + '.');
}

function whyNotHolders() {
  const { stopped, notJudged, watched } = account;
  const other = notJudged && 'holders looks at label 0 alone, and has not judged ' + notJudged
    + ' with labels other than 0';
  const stops = stopped && 'holders stops at ' + stopped + ', which on a capture need not be a fault of the bus';
  if (stops || other) return [stops, other].filter(Boolean).join('; ');
  if (watched.missed) {
    return 'holders looks at label 0 alone, and did not see ' + plural(watched.missed, 'swap') + ' that watch saw made';
  }
  return 'holders judged nothing: the log has no answer with label 0 of a register that it watches';
}

function putTroubles(top) {
  const counts = rows.troubles;
  if (!counts[RED] && !counts[AMBER]) { paragraph(top, 'No row has trouble.'); return; }
  const show = element('button', '', plural(counts[RED], 'row') + ' with trouble');
  show.dataset.trouble = '1';
  paragraph(top, show, ', ' + plural(counts[AMBER], 'row')
    + ' of swaps that were not made, of jobs that a bus reset ended, or of what changed unseen.');
}

// A row as an element. `view.js` calls `drawRow` for each row in sight.

const CLASS_OF_ROW = {
  [EXCHANGE]: 'packet', [REQUEST]: 'packet', [ANSWER]: 'packet', [RUN]: 'streams', [FLOW]: 'streams',
    [HAPPENS]: 'happens',
  [GAP]: 'gap', [LINE]: 'script', [STOP]: 'stop', [FINISH]: 'finish', [SECTION]: 'reset', [TOP]: 'top',
};

function drawRow(row, index) {
  const kind = rows.kind[row], bus = busOf(rows.section[row]), height = layout.height(row);
  const made = element('div', 'row ' + CLASS_OF_ROW[kind] + ['', ' amber', ' red'][rows.trouble[row]]);
  made.id = 'row' + row;
  made.dataset.row = row;
  made.style.height = height + 'px';
  made.style.setProperty('--columns', layout.columns(bus) + 'px');
  made.style.setProperty('--strip', layout.strip.width + 'px');
  const attributes = { role: 'option', 'aria-posinset': index + 1, 'aria-setsize': layout.shown.length };
  for (const name in attributes) made.setAttribute(name, attributes[name]);
  if (kind !== TOP) made.setAttribute('aria-label', cut(spoken(row), LONGEST_TEXT));
  if (kind === TOP) drawTop(made);
  else if (kind === SECTION) drawSection(made, row, bus, height);
  else drawPlain(made, row, bus, height);
  return made;
}

function drawPlain(made, row, bus, height) {
  const kind = rows.kind[row], e = rows.first[row];
  if (hasEntry(row)) {
    const same = e && log.cycle[e] === log.cycle[e - 1] && rows.kind[row - 1] > SECTION;
    made.append(linkTo(e, 'number', e), element('span', same ? 'cycle same' : 'cycle', commas(log.cycle[e])));
  }
  const words = element('div', 'words ' + (isPackets(row) || isRun(row) ? classOf(row) : 'note'));
  putWords(words, row);
  const strip = drawStrip(stateAt(momentOf(row)), height, bus);
  if (kind === FLOW) strip.append(laneDot(rows.runs[row].channel));
  made.append(drawNet(row, bus, height), words, strip);
  if (!smallScreen && (isPackets(row) || kind === HAPPENS)) putChange(made, words, changesOf(row, bus));
}

/** The number of an entry is its link; the rows are one stop for the tab key, so the links are none. */
function linkTo(e, kind, words) {
  const link = element('a', kind, words);
  link.href = '#e' + e;
  link.tabIndex = -1;
  return link;
}

/** What has changed in the strip, in words beside it. */
function putChange(made, words, changes) {
  if (!changes.length) return;
  const chip = element('span', 'change', changes.slice(0, 2).join(', ') + (changes.length > 2 ? ' ..' : ''));
  words.style.paddingRight = chip.textContent.length * 6.4 + 16 + 'px';
  made.append(chip);
}

/** A bus reset: heading, tree. */
function drawSection(made, row, bus, height) {
  const section = rows.section[row], e = rows.first[row], folded = layout.isFolded(row), title = element('h2');
  title.append(linkTo(e, '', sectionTitle(section)));
  if (folded) made.classList.add('folded');
  if (folded || layout.unfolded.has(row)) {
    const toggle = element('button', '', folded ? 'draw the tree' : 'fold');
    toggle.dataset.fold = row;
    title.append(toggle);
  }
  title.append(element('small', '', sectionWords(section)));
  made.append(title, drawStrip(stateAt(e), height, bus));
  if (!folded) made.append(drawTree(bus, height));
}

// The view: draws the rows in sight, scrolls, and selects. Bar, overview and panel say what they do then in `whenSeen`,
// `whenPlaced` and `whenSelected`, so nothing here knows of them. Others call `view` and `rearrange`.

const whenSeen = [], whenPlaced = [], whenSelected = [];
const call = list => { for (const does of list) does(); };

const view = {
  drawn: new Map(), selected: -1, now: 0, headed: '', mark: -1,
  hits: /** @type {Uint8Array | null} */ (null),               // of each row: whether a search found it

  /** Places the rows anew, with what is now chosen and as wide as there is room. */
  arrange() {
    layout.choose();
    this.place();
  },

  place() {
    layout.place();
    $('sheet').style.height = layout.tall + 'px';
    this.redraw();
    call(whenPlaced);
  },

  redraw() {
    for (const made of this.drawn.values()) made.remove();
    this.drawn.clear();
    this.headed = '';
    this.draw();
  },

  /** How far the rows are scrolled. If all of them would be taller than a browser draws, the scroll bar is a scale. */
  scrolled() {
    const { scrollTop, clientHeight } = $('view');
    if (layout.total <= TALLEST) return scrollTop;
    return scrollTop * (layout.total - clientHeight) / Math.max(1, layout.tall - clientHeight);
  },

  scrollTo(y) {
    const { clientHeight } = $('view');
    const scale = layout.total <= TALLEST ? 1 : (layout.tall - clientHeight) / Math.max(1, layout.total - clientHeight);
    $('view').scrollTop = Math.max(0, y) * scale;
    this.draw();
  },

  /** So that no row is cut at the top. */
  scrollToRowAt(y) { this.scrollTo(layout.tops[Math.max(0, lastUpTo(layout.tops, y))]); },

  draw() {
    const { scrollTop, clientHeight } = $('view'), { shown, tops } = layout;
    const top = this.scrolled(), bottom = top + clientHeight, shift = scrollTop - top;
    const first = Math.max(0, lastUpTo(tops, top - 200)),
      last = Math.min(shown.length - 1, lastUpTo(tops, bottom + 200));
    const wanted = new Set(shown.slice(first, last + 1));
    for (const [row, made] of this.drawn) if (!wanted.has(row)) { made.remove(); this.drawn.delete(row); }
    for (let i = first; i <= last; i++) this.drawAt(shown[i], i, tops[i] + shift);
    const wide = Math.max(0, ...[...wanted].map(row => layout.leastWidth(row)));
    const least = wide > layout.width ? wide + 'px' : '';
    if ($('sheet').style.minWidth !== least) $('sheet').style.minWidth = least;
    this.now = shown[clamp(lastUpTo(tops, top + 2), 0, shown.length - 1)];
    this.drawHeads();
    call(whenSeen);
  },

  drawAt(row, i, y) {
    if (!this.drawn.has(row)) {
      const made = drawRow(row, i);
      this.drawn.set(row, made);
      this.markRow(row, made);
      $('sheet').append(made);
    }
    this.drawn.get(row).style.top = y + 'px';
  },

  markRow(row, made) {
    made.classList.toggle('selected', row === this.selected);
    made.classList.toggle('mark', row === this.mark);
    made.classList.toggle('hit', Boolean(this.hits && this.hits[row]));
    made.setAttribute('aria-selected', row === this.selected);
  },

  markRows() {
    for (const [row, made] of this.drawn) this.markRow(row, made);
  },

  /** The heads of the columns, above the rows: they are those of the section in sight, and scroll sidewards with it. */
  drawHeads() {
    const { scrollLeft, scrollWidth, clientWidth } = $('view'), section = rows.section[this.now];
    const state = [section, layout.width, scrollWidth, scrollLeft, allNodes].join();
    if (state === this.headed) return;
    this.headed = state;
    const bus = busOf(section), pitch = layout.pitch(bus), height = $('heads').clientHeight;
    const left = svg('svg', { width: layout.columns(bus), height }), right = stripHeads(height);
    for (const node of bus.shown) left.append(...nodeHead(bus, node, layout.nodeX(bus, node), 13, pitch));
    left.style.left = layout.gutter - scrollLeft + 'px';
    right.style.left = Math.max(clientWidth, scrollWidth) - layout.strip.width - scrollLeft + 'px';
    $('heads').replaceChildren(left, right);
  },

  /** Brings a row into sight, a third from the top if it was not. */
  reveal(row) {
    const i = layout.indexOf(row), y = layout.tops[i], high = $('view').clientHeight, top = this.scrolled();
    if (y >= top && y + layout.rowHeight <= top + high - 10) return;
    this.scrollToRowAt(rows.kind[row] === SECTION ? y : y - high / 3);
  },

  select(row) {
    if (row < 0 || row >= rows.count) return;
    if (!layout.shows(row)) showAll();
    this.selected = row;
    this.reveal(row);
    this.markRows();
    $('view').setAttribute('aria-activedescendant', 'row' + row);
    call(whenSelected);
  },

  /** The selected row, or the first in sight. */
  here() { return this.selected >= 0 ? this.selected : this.now; },

  step(by) {
    const { shown } = layout;
    let i = this.selected < 0 ? layout.indexOf(this.now) - (by > 0 ? 1 : 0) : layout.indexOf(this.selected);
    do i += by; while (shown[i] !== undefined && rows.kind[shown[i]] === GAP);
    this.select(shown[clamp(i, 0, shown.length - 1)]);
  },

  /** The room has changed: what is in sight stays there. */
  resize() {
    const row = this.here(), before = (layout.tops[layout.indexOf(row)] || 0) - this.scrolled();
    this.measure();
    this.place();
    this.scrollTo(layout.tops[layout.indexOf(row)] - before);
  },

  /** The head of the page is as tall as its words. */
  measure() {
    layout.measure($('view').clientWidth);
    const probe = element('div', 'row top probe');
    drawTop(probe);
    $('sheet').append(probe);
    layout.topHeight = probe.offsetHeight + 2;
    probe.remove();
  },
};

/** Arranges the rows anew, after another choice, and keeps what is in sight. */
function rearrange() {
  const row = view.here();
  layout.pitches.clear();
  view.arrange();
  const y = layout.tops[Math.max(0, layout.indexOf(row))];
  view.scrollToRowAt(view.selected >= 0 ? y - $('view').clientHeight / 3 : y);
}

function showAll() {
  filter.reset();
  view.arrange();
}

// The overview: all that is shown, from left to right, in 20 dots of height. It draws itself when the view is placed
// or scrolled.

const OVERVIEW_HEIGHT = 20;
let picture = null;                                            // all but the window that is in sight

function inkOf(canvas, scale) {
  const ink = canvas.getContext('2d');
  ink.setTransform(scale, 0, 0, scale, 0, 0);
  return ink;
}

const colour = name => getComputedStyle(document.body).getPropertyValue('--' + name);

function drawOverview() {
  const canvas = $('overview'), scale = window.devicePixelRatio || 1, width = canvas.clientWidth,
    { shown, tops, total } = layout;
  picture = element('canvas');
  for (const each of [picture, canvas]) {
    each.width = Math.max(1, width * scale);
    each.height = OVERVIEW_HEIGHT * scale;
  }
  const ink = inkOf(picture, scale), perDot = width / total;
  const ticks = (name, y, height, wide, passes) => {
    ink.fillStyle = colour(name);
    for (let i = 0; i < shown.length; i++) if (passes(shown[i])) ink.fillRect(tops[i] * perDot, y, wide, height);
  };
  ticks('life', 0, shown.length > 200 * width ? 5 : OVERVIEW_HEIGHT, 1, row => rows.kind[row] === SECTION);
  ticks('warn', 12, 4, 1.5, row => rows.trouble[row] === AMBER);
  ticks('bad', 8, 12, 1.5, row => rows.trouble[row] === RED);
  if (view.hits) ticks('hold', 0, 7, 1.5, row => view.hits[row]);
  drawWindow();
}

function drawWindow() {
  if (!picture) return;
  const canvas = $('overview'), ink = inkOf(canvas, 1), perDot = canvas.clientWidth / Math.max(1, layout.total);
  ink.clearRect(0, 0, canvas.width, canvas.height);
  ink.drawImage(picture, 0, 0);
  const x = view.scrolled() * perDot, width = Math.max(3, $('view').clientHeight * perDot),
    scaled = inkOf(canvas, canvas.width / canvas.clientWidth || 1);
  scaled.fillStyle = colour('hold');
  scaled.globalAlpha = .18;
  scaled.fillRect(x, 0, width, OVERVIEW_HEIGHT);
  scaled.globalAlpha = 1;
  scaled.fillRect(x, OVERVIEW_HEIGHT - 2, width, 2);
}

whenPlaced.push(drawOverview);
whenSeen.push(drawWindow);

function listenToOverview() {
  const go = event => {
    view.scrollTo(event.offsetX / $('overview').clientWidth * layout.total - $('view').clientHeight / 2);
  };
  $('overview').addEventListener('pointerdown',
    event => { $('overview').setPointerCapture(event.pointerId); go(event); });
  $('overview').addEventListener('pointermove', event => { if (event.buttons) go(event); });
}

// Search: rows whose text has the words; `n` and `p` go through them. Others call `search`, `nextMatch`,
// `listenToSearch`.

const PIECE = 14;                                              // milliseconds, so that the view stays live
const found = { query: '', rows: /** @type {number[]} */ ([]), turn: 0 };

async function search(query) {
  const turn = ++found.turn, wanted = query.trim().toLowerCase(), list = [], hits = new Uint8Array(rows.count),
    from = view.now;
  found.query = wanted;
  const byName = names.some(name => wanted.includes(name)) || /deck|camc|computer|relay/.test(wanted);
  let paused = performance.now();
  for (let row = 1; wanted && row < rows.count; row++) {
    if (matches(row, wanted, byName)) { hits[row] = 1; list.push(row); }
    if (row % 256 || performance.now() - paused < PIECE) continue;
    $('found').textContent = list.length + ' ..';
    await new Promise(go => setTimeout(go));
    if (turn !== found.turn) return;
    paused = performance.now();
  }
  found.rows = list;
  view.hits = wanted ? hits : null;
  if (list.length) goToMatch(Math.max(0, list.findIndex(row => row >= from))); else sayFound(0);
  view.markRows();
  drawOverview();
}

function matches(row, wanted, byName) {
  if (rows.kind[row] === GAP) return false;
  const text = textOf(row);
  if (text.toLowerCase().includes(wanted)) return true;
  return byName && rows.kind[row] !== LINE && rows.kind[row] !== RUN
    && named(text, busOf(rows.section[row])).toLowerCase().includes(wanted);
}

function goToMatch(i) {
  const at = (i + found.rows.length) % found.rows.length;
  sayFound(at);
  view.select(found.rows[at]);
}

function sayFound(i) {
  $('found').textContent = found.rows.length ? i + 1 + ' / ' + commas(found.rows.length) : found.query ? 'none' : '';
}

function nextMatch(by) {
  if (!found.rows.length) return;
  const i = lastUpTo(found.rows, by > 0 ? view.here() : view.here() - 1);
  goToMatch(by > 0 ? i + 1 : i);
}

function listenToSearch() {
  const query = $('query');
  let typed = 0;
  query.addEventListener('input', () => { clearTimeout(typed); typed = setTimeout(() => search(query.value), 160); });
  query.addEventListener('keydown', event => {
    if (event.key === 'Enter') {
      event.preventDefault();
      const same = found.query === query.value.trim().toLowerCase();
      if (same) nextMatch(event.shiftKey ? -1 : 1); else search(query.value);
    } else if (event.key === 'Escape') {
      query.value = '';
      search('');
      $('view').focus();
    }
  });
  $('next').onclick = () => nextMatch(1);
  $('previous').onclick = () => nextMatch(-1);
}

// Filters: the card in which kinds of rows, a device, a channel are chosen. Others call `fillFilters` when it opens,
// `onlyTrouble`.

const CLASSES = {
  read: 'Reads', swap: 'Swaps and other locks', write: 'Writes and AV/C', bid: 'Bids for bus manager',
  stream: 'Streams and cycle starts', shown: 'Shown words', event: 'Outcomes and events', gap: 'Cycles that pass',
  script: 'Lines of the script',
};
let classCounts = null;

function countClasses() {
  const counts = {};
  for (let row = 0; row < rows.count; row++) counts[classOf(row)] = (counts[classOf(row)] || 0) + 1;
  return counts;
}

function fillFilters() {
  const open = document.activeElement && document.activeElement.id;
  classCounts = classCounts || countClasses();
  $('filters').replaceChildren(...Object.keys(CLASSES).filter(name => classCounts[name]).map(classBox), element('hr'),
    choice('by-device', 'Device', devicesThatOccur(), filter.device, device => { filter.device = device; }),
    choice('by-channel', 'Channel', account.lanes.map(channel => [channel, 'channel ' + channel]), filter.channel,
      channel => { filter.channel = channel; }),
    labelled(checkBox('all-nodes', allNodes, all => { showAllNodes(all); rearrange(); }),
      element('span', '', 'A column for nodes that take no part, too')),
    element('hr'), button('Show all', () => { filter.reset(); rearrange(); }));
  if (open && $(open)) $(open).focus();
}

function classBox(name) {
  const change = shown => { if (shown) filter.hidden.delete(name); else filter.hidden.add(name); rearrange(); };
  return labelled(checkBox('show-' + name, !filter.hidden.has(name), change),
    element('span', '', CLASSES[name]), element('span', '', commas(classCounts[name])));
}

function choice(id, title, items, value, change) {
  const list = element('select');
  list.append(new Option('all', '-1'), ...items.map(([key, words]) => new Option(words, key)));
  Object.assign(list, { id, value, onchange: () => { change(Number(list.value)); rearrange(); } });
  return labelled(element('span', '', title), list);
}

/** Devices of the last bus resets. */
function devicesThatOccur() {
  const devices = new Map();
  for (let section = Math.max(1, lastResets() - 38); section <= lastResets(); section++) {
    for (const { device, kind } of busOf(section).nodes) devices.set(device, deviceName(device, kind));
  }
  return [...devices].sort(([a], [b]) => a - b);
}

function onlyTrouble() {
  filter.onlyTrouble = !filter.onlyTrouble;
  rearrange();
}

function sayFilters() {
  const active = filter.hidden.size + Number(filter.device >= 0) + Number(filter.channel >= 0);
  $('trouble').setAttribute('aria-pressed', filter.onlyTrouble);
  $('filtered').textContent = active || '';
  $('filter').firstElementChild.classList.toggle('on', active > 0);
  if ($('filter').open) fillFilters();
}
whenPlaced.push(sayFilters);

// The bar: bus resets, trouble, where one is, the time since a mark, and the row in the address. Others call
// `goToEntry`,
// `goToSection`, `stepSection`, `nextTrouble`, `setMark`, `fillResets` once.

let listing = 0, sharing = 0, listed = -1;

function fillResets() {
  const list = $('resets'), last = Math.min(lastResets(), LISTED_RESETS), withoutReset = rows.sections[1].row > 1;
  list.append(new Option(withoutReset ? 'Before the first bus reset' : 'Top', '0'));
  for (let section = 1; section <= last; section++) {
    const cycle = log.cycle[rows.sections[section].entry];
    list.append(new Option('Reset ' + epochOf(section) + ' \u00b7 cycle ' + commas(cycle), String(section)));
  }
  list.onchange = () => { goToSection(Number(list.value)); $('view').focus(); };
}

/** Says which bus reset, cycle and second the first row in sight is of. */
function sayWhere() {
  const row = view.now, section = rows.section[row], cycle = cycleOf(row), epoch = epochOf(section),
    dim = words => element('span', '', words);
  const count = Number(epoch) === section ? ' of ' + lastResets() : ', ' + section + ' of ' + lastResets();
  const before = row === TOP && rows.sections[1].row === 1 ? 'top of the log' : 'before the first reset';
  const reset = section ? 'reset ' + epoch + count : before;
  if (log.count) {
    $('where').replaceChildren(element('b', '', reset), dim(' \u00b7 cycle '), commas(cycle), dim(' \u00b7 '),
      seconds(cycle));
  }
  if (section === listed) return;
  listed = section;
  clearTimeout(listing);                                       // in a long list this takes time
  listing = setTimeout(() => { $('resets').selectedIndex = listed; }, 150);
}

function goToEntry(e) {
  if (e < log.count && rows.rowOf[e] >= 0) view.select(rows.rowOf[e]);
}

/** A part of the address names an entry: `#e31`. */
function goToHash() {
  const wanted = /^#e(\d+)$/.exec(location.hash);
  if (wanted) goToEntry(Number(wanted[1]));
}

/** The address is that of the selected row, to be kept and shared; a browser allows few such changes a second. */
function shareRow() {
  clearTimeout(sharing);
  sharing = setTimeout(() => {
    const hash = hasEntry(view.selected) ? '#e' + rows.first[view.selected] : '#';
    if (hash !== location.hash) history.replaceState(null, '', hash);
  }, 400);
}

function goToSection(section) {
  const { row } = rows.sections[section];
  view.selected = -1;
  view.markRows();
  if (!layout.shows(row)) showAll();
  view.scrollTo(layout.tops[layout.indexOf(row)]);
}

function stepSection(by) {
  const here = rows.section[view.now], behindHeading = view.now > rows.sections[here].row;
  goToSection(clamp(by < 0 && behindHeading ? here : here + by, 0, lastResets()));
}

function nextTrouble(by) {
  let row = view.here() + by;
  while (row > 0 && row < rows.count && rows.trouble[row] !== RED) row += by;
  if (row > 0) view.select(row);
}

function setMark() {
  view.mark = view.mark === view.selected ? -1 : view.selected;
  view.markRows();
  call(whenSelected);
}

function sayBetween() {
  $('between').textContent = '';
  if (view.mark < 0 || view.selected < 0) return;
  const cycles = cycleOf(view.selected) - cycleOf(view.mark), minus = cycles < 0 ? '\u2212' : '',
    passed = Math.abs(cycles);
  const words = minus + plural(passed, 'cycle') + ', ' + minus + duration(passed);
  $('between').append(element('span', '', 'since the mark: '), words);
}

whenSeen.push(sayWhere);
whenSelected.push(sayBetween, shareRow);

// The panel: all of the selected row: words, fields, json, accounts, the line of the script, its partner.
// Others call `showPanel` and `closePanel`; while it is open it follows the selection.

function showPanel(row = view.selected) {
  const panel = $('panel'), opened = panel.hidden;
  const kind = rows.kind[row], first = rows.first[row], last = Math.max(first, momentOf(row));
  if (row < 0 || kind === TOP) return;
  const close = button('\u2715', closePanel), words = element('p', 'words ' + (kind === SECTION ? '' : classOf(row)));
  close.id = 'close';
  close.setAttribute('aria-label', 'Close');
  putWords(words, row);
  panel.replaceChildren(close, element('h2', '', titleOfRow(row)),
    element('p', 'quiet', 'cycle ' + commas(cycleOf(row)) + ' \u00b7 ' + seconds(cycleOf(row))), words);
  putTools(panel, row);
  if (kind === LINE) put(panel, '', lineAt(log.between.places[first]), 'pre');
  if (hasEntry(row) && kind !== STOP) {
    putTold(panel, 'holders', linesOf(log.held, first, last));
    putTold(panel, 'watch', linesOf(log.watched, first, last));
    const held = heldText(stateAt(last), busOf(rows.section[row]));
    putPart(panel, 'Held then, by ' + (account.byHolders ? 'holders' : 'watch'), element('p', '', held));
    putCause(panel, first);
    if (isRun(row)) putPart(panel, 'entries', entriesOfRun(row));
    else if (kind === EXCHANGE) for (const e of [first, last]) putEntry(panel, e, 'entry ' + e);
    else putEntry(panel, first, 'in words');
  }
  panel.hidden = false;
  if (opened) view.resize();
}

function closePanel() {
  $('panel').hidden = true;
  view.resize();
  $('view').focus();
}

whenSelected.push(() => { if (!$('panel').hidden) showPanel(); });

function titleOfRow(row) {
  const first = rows.first[row], last = rows.last[row], kind = rows.kind[row];
  if (kind === SECTION) return sectionTitle(rows.section[row]);
  if (kind === LINE) return 'Line of the script';
  if (kind === GAP) return 'Cycles pass';
  if (kind === EXCHANGE) return 'Entries ' + first + ' and ' + last;
  return last > first ? 'Entries ' + first + ' to ' + last : 'Entry ' + first;
}

function putPart(panel, title, content) {
  panel.append(element('h3', '', title), content);
}

function putTold(panel, word, lines) {
  if (!lines.length) return;
  const part = element('div');
  for (const words of lines.slice(0, 60)) put(part, '', words.trim().replace(/ {2,}/, ' \u00b7 '), 'p');
  if (lines.length > 60) put(part, 'quiet', 'and ' + commas(lines.length - 60) + ' more', 'p');
  putPart(panel, word, part);
}

function putCause(panel, entry) {
  const i = lastUpTo(log.between.entries, entry);
  if (i >= 0) putPart(panel, 'caused by line', element('pre', '', lineAt(log.between.places[i]).slice(1).trim()));
}

function putTools(panel, row) {
  const tools = element('div', 'tools'), e = rows.first[row], isRequest = rows.kind[row] === REQUEST;
  if (isRequest || rows.kind[row] === ANSWER) {
    const other = rows.partner[e];
    if (other >= 0) {
      const cycles = Math.abs(log.cycle[other] - log.cycle[e]), passed = plural(cycles, 'cycle')
        + (cycles ? ', ' + duration(cycles) : '');
      put(panel, 'quiet', 'between request and answer: ' + passed, 'p');
      tools.append(button((isRequest ? 'Go to its answer, ' : 'Go to its request, ') + other, () => goToEntry(other)));
    } else put(panel, 'no', isRequest ? 'It has no answer.' : 'It has no request.', 'p');
  }
  tools.append(button(view.mark === row ? 'Take the mark away' : 'Mark  m', () => { view.selected = row; setMark(); }));
  panel.append(tools);
}

/** The entries of a run, or those of one of its flows; each opens to its fields. */
function entriesOfRun(row) {
  const list = element('div'), flow = rows.kind[row] === FLOW ? rows.runs[row] : null;
  let run = row, shown = 0;
  if (isPartOfRun(row)) while (rows.kind[run] !== RUN) run--;
  for (let e = rows.first[run]; e <= rows.last[run]; e++) {
    if (flow && (log.kind[e] !== STREAM || log.code[e] !== flow.channel || log.from[e] !== flow.sid)) continue;
    if (++shown > LISTED_ENTRIES) {
      put(list, 'quiet', 'and others up to entry ' + rows.last[run] + ': a search finds them', 'p');
      break;
    }
    list.append(unfolding('', e + ': ' + explained(e), () => fieldsOf(objectOf(e))));
  }
  return list;
}

/** A line that opens to more, which is made then. */
function unfolding(kind, words, more) {
  const made = element('details');
  put(made, kind, words, 'summary');
  made.addEventListener('toggle', () => { if (made.children.length === 1) made.append(more()); });
  return made;
}

function putEntry(panel, e, title) {
  putPart(panel, title, element('p', '', cut(explained(e), LONGEST_TEXT)));
  panel.append(fieldsOf(objectOf(e)),
    unfolding('quiet', 'as json', () => element('pre', '', cut(lineAt(log.place[e]), 2 * LONGEST_TEXT))));
}

const has = (object, key) => Object.prototype.hasOwnProperty.call(object, key);
/** The keys but those that name another one's value. */
const ownKeys = object => Object.keys(object).filter(key => !(key.endsWith('_name') && has(object, key.slice(0, -5))));
const plain = value => Array.isArray(value) ? value.map(plain).join(' ') : value === null ? 'none'
  : typeof value === 'object' ? inOneLine(value) : String(value);
const nameIn = (object, key) => has(object, key + '_name') && typeof object[key + '_name'] === 'string'
  ? object[key + '_name'] : '';
const field = (object, key) => key + ' ' + (nameIn(object, key) || plain(object[key]));
const inOneLine = object => ownKeys(object).map(key => field(object, key)).join(', ');

/** All fields of an object; a list of objects has a line for each. */
function fieldsOf(object) {
  const table = element('table');
  for (const key of ownKeys(object)) {
    const value = object[key], cell = element('td'), part = element('tr'), name = nameIn(object, key);
    const isList = Array.isArray(value) && value.some(one => one && typeof one === 'object');
    if (isList) for (const one of value) put(cell, '', plain(one), 'p');
    else cell.textContent = cut(plain(value), LONGEST_TEXT) + (name ? ' (' + name + ')' : '');
    part.append(element('th', '', key), cell);
    table.append(part);
  }
  return table;
}

// The key: what the drawing means, and the keys. `fillKey` once.

function fillKey() {
  const key = $('key');
  const heading = words => key.append(element('h3', '', words));
  const entry = (...parts) => { const made = element('div'); made.append(...parts); key.append(made); };
  const item = (words, ...parts) => entry(svg('svg', { width: 56, height: 20 }, ...parts), element('span', '', words));
  const keys = (words, ...letters) => {
    const list = element('span');
    list.append(...letters.flatMap(letter => [element('kbd', '', letter), ' ']));
    entry(list, element('span', '', words));
  };
  const exchange = (tone, result) => groupOf(tone, ...thereAndBack(7, 49, 9, result));
  const rest = box('waiting swap', 4, 8, 7, 12), upright = (kind, x) => lineOf(kind, x, 0, x, 20);

  heading('Packets');
  item('a request and its answer, with nothing between', exchange('read', ''));
  item('a swap that was made', exchange('swap', 'yes'));
  item('a swap before which another was, or a refusal', exchange('swap', 'no'));
  item('a request that waits; the bar goes on to its answer', groupOf('swap', ...oneWay(8, 50, 8, '', false)),
    groupOf('swap', rest));
  item('an answer that came later', groupOf('swap', ...oneWay(49, 6, 10, 'yes', true)));
  item('packets of a channel, to those who hear it', ...pipe(8, 46, 10), dot('dot', 8, 10, 4),
    groupOf('stream', arrowHead('', 50, 10, true)));
  item('done, broken off, not done', ...['ok', 'hm', 'no'].map((level, i) => dot('icon-' + level, 10 + 18 * i, 10, 7)));
  heading('Nodes: a number is that of the node; filled is the resource manager, a flash began the bus reset, '
    + 'a thicker cable is faster');
  const bus = { nodes: [0, 1, 2, 3].map(kind => ({ kind })), manager: 1 };
  for (const kind of [1, 2, 3, 0]) item(DEVICE_KINDS[kind], sign(bus, kind, 28, 10));
  heading('On the line of a node');
  item('an output plug talks (right), an input plug hears (left)', upright('life', 28), box('talks', 30, 0, 3, 20),
    box('hears', 23, 0, 3, 20));
  item('its controller is dead; waits in vain', upright('dead', 18), upright('deaf', 38));
  heading('The strip at the right: units that are taken, and who has a channel');
  for (const [how, words] of account.byHolders ? HOW_BY_HOLDERS : HOW_BY_WATCH) item(words, box(how, 20, 0, 12, 20));
  heading('Keys');
  for (const [words, ...letters] of KEYS) keys(words, ...letters);
}

const HOW_BY_HOLDERS = [
  ['pending', 'pending: a controller, not connected yet, or no longer'], ['connected', 'connected: a plug'],
  ['orphaned', 'orphaned: its controller died'],
    ['continues', 'continues: its plug talks on in the second after a bus reset'],
  ['reclaimable', 'reclaimable in that second: its plug is silent or gone'],
];
const HOW_BY_WATCH = [
  ['taken', 'taken, by a swap that was seen'], ['connected', 'and an output plug is connected on it'],
  ['unseen-taken', 'taken: the swap was not seen'],
];
const KEYS = [
  ['search; next, previous match', '/', 'n', 'p'], ['next, previous row', '\u2193 j', '\u2191 k'],
  ['all of a row; close', 'Enter', 'Esc'], ['next, previous bus reset', ']', '['],
  ['only trouble; next, previous trouble', 't', '.', ','], ['mark a row: time since it', 'm'],
  ['first, last row', 'Home', 'End'], ['this key', '?'],
];

// Print: what is shown, as a plain table. `fillPrint` runs before a page is printed.

function fillPrint() {
  const top = element('div'), table = element('table'), head = element('thead'), body = element('tbody'),
    headings = element('tr');
  drawTop(top);
  for (const press of top.querySelectorAll('button')) press.replaceWith(press.textContent);
  for (const title of ['entry', 'cycle', 'from, to', 'what', 'held then']) put(headings, '', title, 'th');
  head.append(headings);
  let held = '';
  for (const row of layout.shown.slice(1, PRINTED_ROWS + 1)) {
    const now = hasEntry(row) ? heldText(stateAt(momentOf(row)), busOf(rows.section[row])) : held;
    body.append(printedRow(row, now === held ? '' : now));
    held = now;
  }
  table.append(head, body);
  $('printed').replaceChildren(top, table);
  const count = layout.shown.length - 1;
  if (count <= PRINTED_ROWS) return;
  put($('printed'), '', 'The first ' + commas(PRINTED_ROWS) + ' of ' + commas(count)
    + ' rows. A filter chooses others.', 'p');
}

function printedRow(row, held) {
  const section = rows.section[row], bus = busOf(section), e = rows.first[row], kind = rows.kind[row];
  const made = element('tr', kind === SECTION ? 'section' : rows.trouble[row] === RED ? 'red' : '');
  const cell = words => { made.append(element('td', '', words)); return made.lastChild; };
  cell(hasEntry(row) ? String(e) : '');
  if (kind === SECTION) {
    cell(sectionTitle(section) + ': ' + sectionWords(section) + '; ' + treeText(bus)).colSpan = 4;
    return made;
  }
  cell(hasEntry(row) ? commas(log.cycle[e]) : '');
  const way = kind === EXCHANGE ? ' \u21c4 ' : ' \u2192 ';
  cell(isPackets(row) ? idName(bus, log.from[e]) + way + idName(bus, log.to[e]) : kind === LINE ? 'line' : '');
  const words = cell('');
  putWords(words, row);
  for (const part of [...words.children]) part.after(' ');
  cell(held);
  return made;
}

// Main: reads the data, draws, and listens. Each step uses only those before it: lines -> entries -> rows -> what is
// seen.

document.addEventListener('DOMContentLoaded', () => setTimeout(start));

function start() {
  const began = performance.now(), data = $('log');
  log = readLog(data ? data.textContent : '');
  rows = makeRows();
  account = makeAccount();
  readNames();
  readLife();
  readBars();
  $('reading').remove();
  $('app').hidden = false;
  document.title = titleOf();
  const red = rows.troubles[RED];
  $('troubles').textContent = red ? commas(red) : '';
  fillPatterns();
  fillResets();
  fillKey();
  view.measure();
  view.arrange();
  listen();
  goToHash();
  Object.assign(window, { took: Math.round(performance.now() - began) });
}

function listen() {
  let due = 0;
  $('view').addEventListener('scroll', () => {
    if (!due) due = requestAnimationFrame(() => { due = 0; view.draw(); });
  }, { passive: true });
  new ResizeObserver(() => { if ($('view').clientWidth !== layout.width) view.resize();
  else view.draw(); }).observe($('view'));
  $('sheet').addEventListener('click', pressed);
  $('trouble').onclick = onlyTrouble;
  $('filter').addEventListener('toggle', () => { if ($('filter').open) fillFilters(); });
  document.addEventListener('pointerdown', event => { closeCards(card => !card.contains(event.target)); });
  window.addEventListener('hashchange', goToHash);
  window.addEventListener('beforeprint', fillPrint);
  matchMedia('(prefers-color-scheme: dark)').addEventListener('change', () => view.place());
  document.addEventListener('keydown', keyed);
  listenToSearch();
  listenToOverview();
  $('view').focus({ preventScroll: true });
}

/** A click on a row, or on a button in it. */
function pressed(event) {
  const { fold, trouble } = event.target.dataset, row = event.target.closest('.row');
  if (fold) { layout.fold(Number(fold)); rearrange(); } else if (trouble) onlyTrouble();
  else if (row && Number(row.dataset.row) !== TOP && !String(getSelection())) {
    view.select(Number(row.dataset.row));
    showPanel();
  }
}

/** Closes the cards of the bar that a test chooses; says whether one was open. */
function closeCards(chosen = _ => true) {
  const open = [$('filter'), $('help')].filter(card => card.open && chosen(card));
  for (const card of open) {
    if (card.contains(document.activeElement)) card.firstElementChild.focus();
    card.open = false;
  }
  return open.length > 0;
}

const scrollByPages = pages => {
  const high = Math.max(1, Math.floor($('view').clientHeight / layout.rowHeight) - 2) * layout.rowHeight;
  view.scrollTo(view.scrolled() + pages * high);
};

const DOES = {
  '/': () => { $('query').focus(); $('query').select(); }, n: () => nextMatch(1), p: () => nextMatch(-1),
  ArrowDown: () => view.step(1), j: () => view.step(1), ArrowUp: () => view.step(-1), k: () => view.step(-1),
  Enter: () => showPanel(), Escape: () => { if (!closeCards() && !$('panel').hidden) closePanel(); },
  ']': () => stepSection(1), '[': () => stepSection(-1), t: onlyTrouble, '.': () => nextTrouble(1),
    ',': () => nextTrouble(-1),
  m: () => { if (view.selected > TOP) setMark(); }, '?': () => { $('help').open = !$('help').open; },
  Home: () => view.scrollTo(0), End: () => view.scrollTo(layout.total),
  PageDown: () => scrollByPages(1), PageUp: () => scrollByPages(-1),
};

function keyed(event) {
  const does = DOES[event.key], typing = /^(INPUT|SELECT|TEXTAREA)$/.test(event.target.tagName);
  if (!does || event.ctrlKey || event.metaKey || event.altKey || (typing && event.key !== 'Escape')) return;
  if (event.key === 'Enter' && /^(BUTTON|SUMMARY|A)$/.test(event.target.tagName)) return;
  event.preventDefault();
  does();
}
</script>
<xmp id="log" hidden>
"##;

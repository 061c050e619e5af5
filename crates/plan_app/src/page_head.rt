//! The beginning of a page, up to its data.
//! `tools/film_page` makes this file of `page.html` and others: change those.

/// The beginning of a page, up to its data.
pub const PLAN_HEAD: &str = r##"<!doctype html>
<html lang="en">
<meta charset="utf-8">
<meta name="viewport" content="width=device-width, initial-scale=1">
<title>A plan, turn by turn</title>
<style>
:root {
  color-scheme: light dark;
  --ink: #16202c; --soft: #55606c; --line: #c4ccd5; --page: #f2f4f7; --card: #fff; --belt: #e4e8ed; --plate: #dfe4ea;
  --forged: #7a4b00; --alarm: #c00020; --lane: #e8ebef; --of-watch: #888;
  --tall: clamp(300px, 100vh - 402px, (100vw - 420px) * .595);
}
@media (prefers-color-scheme: dark) {
  :root {
    --ink: #e8edf2; --soft: #a5b0bc; --line: #46515d; --page: #12171d; --card: #1b222b; --belt: #2a333e;
    --plate: #56626f; --forged: #8f5f12; --alarm: #ff6b7d; --lane: #2a323c; --of-watch: #999;
  }
}
* { box-sizing: border-box; }
body { margin: 0; background: var(--page); color: var(--ink); font: 14px/1.4 system-ui, "DejaVu Sans", sans-serif; }
main {
  display: grid; gap: 6px; padding: 0 8px 8px; max-width: 1820px; margin: auto;
  grid-template-columns: calc(var(--tall) * 1.681 + 18px) minmax(0, 1fr);
  grid-template-areas: "head head" "cell side" "word word" "time time" "legend legend" "state state";
}
header { grid-area: head; position: sticky; top: 0; z-index: 2; background: var(--page); min-width: 0; }
header { padding-top: 6px; }
.told { display: flex; flex-wrap: wrap; gap: 0 16px; align-items: baseline; margin-top: 4px; min-height: 22px; }
h1 { font-size: 15px; margin: 0; }
p { margin: 0; }
#where { font-variant-numeric: tabular-nums; }
section { background: var(--card); border: 1px solid var(--line); border-radius: 8px; padding: 8px; min-width: 0; }
#cellbox { grid-area: cell; position: relative; } #side { grid-area: side; display: flex; flex-direction: column; }
#time { grid-area: time; } #wordbox { grid-area: word; } #statebox { grid-area: state; }
#legend { grid-area: legend; display: grid; grid-template-columns: repeat(3, 1fr); gap: 8px 24px; }
#legend { scroll-margin-top: 80px; }
.alarm { color: var(--alarm); font-weight: 700; }
.soft { color: var(--soft); } .soft b { color: var(--ink); } p.soft { font-size: 12.5px; }
#banner:empty, #note:empty, #banner:not(:empty) + #note { display: none; }
svg { display: block; width: 100%; }
#cell { height: var(--tall); cursor: pointer; } #cell * { pointer-events: none; }
svg text { font: 13px system-ui, "DejaVu Sans", sans-serif; fill: var(--ink); }
svg .name { font-size: 14px; font-weight: 700; }
svg .number { font-size: 16px; font-weight: 700; }
svg .small { font-size: 13px; fill: var(--soft); }
svg .short { display: none; }
.wait { fill: none; stroke: var(--alarm); stroke-width: 3; stroke-dasharray: 6 4; }
.ring { stroke-width: 5; stroke-dasharray: none; }
.halo { fill: none; stroke: var(--card); stroke-width: 8; }
.chip { display: inline-block; min-width: 19px; border-radius: 4px; text-align: center; font-weight: 700; color: #000; }
table { border-collapse: collapse; table-layout: fixed; width: 100%; font-size: 13px; }
td:nth-child(1) { width: 27px; } td:nth-child(2) { width: var(--who); } td:nth-child(3) { width: 128px; }
td { padding: 2px 4px; border-bottom: 1px solid var(--line); vertical-align: top; }
#log { flex: 1 1 0; min-height: 0; overflow: hidden; display: flex; flex-direction: column; justify-content: flex-end; }
#log, #word, pre { font: 12px/1.5 ui-monospace, "DejaVu Sans Mono", monospace; }
#log { margin-top: 6px; } #log .done { font-weight: 700; }
#log div { white-space: pre-wrap; padding-left: 30ch; text-indent: -30ch; }
pre { margin: 4px 0 0; overflow-x: auto; }
.keys { display: flex; flex-wrap: wrap; gap: 6px; align-items: center; }
.keys label { display: flex; align-items: center; gap: 6px; }
button { font: inherit; color: inherit; background: var(--card); border: 1px solid var(--soft); border-radius: 6px; }
button { padding: 4px 10px; cursor: pointer; touch-action: manipulation; } button:hover { background: var(--belt); }
#play { min-width: 102px; font-weight: 700; }
#speed { width: 110px; } #pace { min-width: 16ch; font-variant-numeric: tabular-nums; }
#hint {
  position: absolute; left: 50%; top: 66%; transform: translate(-50%, -50%); padding: 8px 18px; white-space: nowrap;
  font-size: 17px; font-weight: 700; border: 2px solid var(--ink); border-radius: 24px;
}
#hint[hidden], #hint .tap { display: none; }
canvas { width: 100%; height: 217px; display: block; cursor: col-resize; touch-action: pan-y; }
#word { display: flex; flex-wrap: wrap; gap: 6px; align-items: flex-start; }
.field { display: flex; flex-direction: column; align-items: center; } .field small { color: var(--soft); }
.field small { white-space: nowrap; }
.bit { display: inline-block; height: 19px; text-align: center; border: 1px solid var(--line); }
.bit { width: clamp(11px, 1vw, 17px); margin-left: -1px; }
.bit.flip { border-color: var(--ink); box-shadow: 0 -3px var(--ink), 0 3px var(--ink); position: relative; z-index: 1; }
.alone main { display: block; } .alone section:not(#wordbox) { display: none; }
.alone #wordbox { margin-top: 8px; }
.alone #word { font-size: 22px; gap: 14px; } .alone .bit { width: 21px; height: 36px; }
.unseen { position: absolute; clip-path: inset(50%); width: 1px; height: 1px; overflow: hidden; white-space: nowrap; }
@media (min-width: 901px) and (max-width: 1250px) { #machines tr { height: 39px; } }
@media (max-width: 1100px) { #keys { display: none; } }
@media (max-width: 900px) {
  main { grid-template-columns: minmax(0, 1fr); }
  main { grid-template-areas: "head" "cell" "word" "time" "side" "legend" "state"; }
  #legend { grid-template-columns: minmax(0, 1fr); }
  #cell { height: auto; } #log { flex: none; height: 220px; } #machines tr { height: 39px; }
}
@media (pointer: coarse) {
  #keys, #hint .key { display: none; } #hint .tap { display: inline; }
  button { min-height: 44px; min-width: 44px; } #speed { height: 32px; }
}
@media (max-width: 560px) {
  main { padding: 0 4px 4px; gap: 4px; } section { padding: 5px; }
  header { padding-top: 4px; } #kind, .keys button span { display: none; }
  .keys { gap: 4px; justify-content: space-between; } .keys button { padding: 6px 4px; min-width: 42px; }
  .keys #play { min-width: 96px; } .told { margin-top: 0; gap: 0 10px; } #where { font-size: 13px; }
  svg .long, svg .step { display: none; } svg .short { display: inline; }
  svg text { font-size: 20px; } svg .name { font-size: 21px; } svg .small { font-size: 17px; }
  #hint { padding: 4px 14px; font-size: 15px; min-height: 0; }
  #word { gap: 3px 5px; } #word, #log, pre { font-size: 11px; } .bit { width: 10px; height: 17px; }
}
</style>
<main>
<header>
  <div class="keys">
    <button id="first" aria-label="To the start">|&#9664;</button>
    <button id="lastchange" aria-label="To the change before">&#9664;&#9664;<span> change</span></button>
    <button id="lastturn" aria-label="To the turn before">&#9664;<span> turn</span></button>
    <button id="play">&#9654; play</button>
    <button id="nextturn" aria-label="To the next turn"><span>turn </span>&#9654;</button>
    <button id="nextchange" aria-label="To the next change"><span>change </span>&#9654;&#9654;</button>
    <button id="end" aria-label="To the end">&#9654;|</button>
    <label>speed <input id="speed" type="range" min="0" max="10"></label><span id="pace" class="soft"></span>
    <span id="keys" class="soft">Keys: space; &#8592; &#8594; turns; shift &#8592; &#8594; changes; Home, End.</span>
    <a href="#legend">legend</a>
  </div>
  <div class="told">
    <h1><span id="kind">A plan, turn by turn: </span><span id="title"></span></h1>
    <p id="where"></p>
    <p id="banner" class="alarm"></p>
    <p id="note" class="soft"></p>
    <p id="said" class="unseen" role="status"></p>
    <noscript>A script in this page plays the film; the browser doesn't run it.</noscript>
  </div>
</header>
<section id="cellbox">
  <svg id="cell" viewBox="0 0 790 470" role="img"></svg>
  <button id="hint" hidden>&#9654; <span class="key">press space</span><span class="tap">tap to play</span></button>
</section>
<section id="side">
  <table aria-label="Machines"><tbody id="machines"></tbody></table>
  <div id="log" aria-label="Calls up to this turn"></div>
</section>
<section id="wordbox">
  <div id="word"></div>
</section>
<section id="time">
  <canvas id="lanes" role="slider" tabindex="0" aria-label="Turn" aria-valuemin="0"></canvas>
</section>
<section id="legend">
  <p class="soft"><b>The picture.</b> A zone has the colour of its owner, grey if it is free. Its border: full is
  closed, dashed is open, dotted and hatched is moving. Open is in (openin: plates come to the host) or out
  (openout: plates leave it); a dot is a plate on its way. A red arrow: waits for, by its last call; full arrows are
  a standstill. <span id="plant"></span></p>
  <p class="soft"><b>The word.</b> The whole interlock, bit by bit; a framed bit has changed in this turn. A zone
  has its posture (closed 00, moving 01, in 10, out 11), a bit for a plate on its way, and its owner (free 00, host
  01, guest 10). stop: the watch has stopped the machines. -: always 0. To project it alone: <a
  href="#word">#word</a>.</p>
  <p class="soft"><b>The lanes.</b> A row a zone: its host's time above, its guest's below, never both; a stripe is
  a plate on its way, hatched is moving. A row a machine: tall is done, middle drives, low waits, flat is busy.
  Shaded: the watch has stopped the machines. A click goes to a turn.</p>
</section>
<section id="statebox">
  <details open><summary>This state in the words of a report</summary><pre id="state"></pre></details>
</section>
</main>
<script id="plan" type="application/json">
"##;

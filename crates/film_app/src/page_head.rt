//! The beginning of a page, up to its lines.
//! `tools/film_page` makes this file of `page.html` and others: change those.

/// The beginning of a page, up to its lines.
pub const PAGE_HEAD: &str = r##"<!doctype html>
<html lang="en">
<meta charset="utf-8">
<meta name="viewport" content="width=device-width, initial-scale=1">
<title>The production cell, turn by turn</title>
<style>
:root {
  color-scheme: light dark;
  --ink: #16202c; --soft: #55606c; --line: #c4ccd5; --page: #f2f4f7; --card: #fff; --belt: #e4e8ed; --plate: #dfe4ea;
  --forged: #7a4b00; --alarm: #c00020; --lane: #e8ebef; --of-watch: #888;
  --tall: clamp(300px, 100vh - 402px, (100vw - 420px) * .595);
}
@media (prefers-color-scheme: dark) {
  :root {
    --ink: #e8edf2; --soft: #a5b0bc; --line: #46515d; --page: #12171d; --card: #1b222b; --belt: #2a333e;
    --plate: #56626f; --forged: #8f5f12; --alarm: #ff6b7d; --lane: #2a323c; --of-watch: #999;
  }
}
* { box-sizing: border-box; }
body { margin: 0; background: var(--page); color: var(--ink); font: 14px/1.4 system-ui, "DejaVu Sans", sans-serif; }
main {
  display: grid; gap: 6px; padding: 0 8px 8px; max-width: 1820px; margin: auto;
  grid-template-columns: calc(var(--tall) * 1.681 + 18px) minmax(0, 1fr);
  grid-template-areas: "head head" "cell side" "word word" "time time" "legend legend" "state state";
}
header { grid-area: head; position: sticky; top: 0; z-index: 2; background: var(--page); min-width: 0; }
header { padding-top: 6px; }
.told { display: flex; flex-wrap: wrap; gap: 0 16px; align-items: baseline; margin-top: 4px; min-height: 22px; }
h1 { font-size: 15px; margin: 0; }
p { margin: 0; }
#where { font-variant-numeric: tabular-nums; }
section { background: var(--card); border: 1px solid var(--line); border-radius: 8px; padding: 8px; min-width: 0; }
#cellbox { grid-area: cell; position: relative; } #side { grid-area: side; display: flex; flex-direction: column; }
#time { grid-area: time; } #wordbox { grid-area: word; } #statebox { grid-area: state; }
#legend { grid-area: legend; display: grid; grid-template-columns: repeat(3, 1fr); gap: 8px 24px; }
#legend { scroll-margin-top: 80px; }
.alarm { color: var(--alarm); font-weight: 700; }
.soft { color: var(--soft); } .soft b { color: var(--ink); } p.soft { font-size: 12.5px; }
#banner:empty, #note:empty, #banner:not(:empty) + #note { display: none; }
svg { display: block; width: 100%; }
#cell { height: var(--tall); cursor: pointer; } #cell * { pointer-events: none; }
svg text { font: 13px system-ui, "DejaVu Sans", sans-serif; fill: var(--ink); }
svg .name { font-size: 14px; font-weight: 700; }
svg .number { font-size: 16px; font-weight: 700; }
svg .small { font-size: 13px; fill: var(--soft); }
svg .short { display: none; }
.wait { fill: none; stroke: var(--alarm); stroke-width: 3; stroke-dasharray: 6 4; }
.ring { stroke-width: 5; stroke-dasharray: none; }
.halo { fill: none; stroke: var(--card); stroke-width: 8; }
.chip { display: inline-block; min-width: 19px; border-radius: 4px; text-align: center; font-weight: 700; color: #000; }
table { border-collapse: collapse; table-layout: fixed; width: 100%; font-size: 13px; }
td:nth-child(1) { width: 27px; } td:nth-child(2) { width: var(--who); } td:nth-child(3) { width: 128px; }
td { padding: 2px 4px; border-bottom: 1px solid var(--line); vertical-align: top; }
#log { flex: 1 1 0; min-height: 0; overflow: hidden; display: flex; flex-direction: column; justify-content: flex-end; }
#log, #word, pre { font: 12px/1.5 ui-monospace, "DejaVu Sans Mono", monospace; }
#log { margin-top: 6px; } #log .done { font-weight: 700; }
#log div { white-space: pre-wrap; padding-left: 30ch; text-indent: -30ch; }
pre { margin: 4px 0 0; overflow-x: auto; }
.keys { display: flex; flex-wrap: wrap; gap: 6px; align-items: center; }
.keys label { display: flex; align-items: center; gap: 6px; }
button { font: inherit; color: inherit; background: var(--card); border: 1px solid var(--soft); border-radius: 6px; }
button { padding: 4px 10px; cursor: pointer; touch-action: manipulation; } button:hover { background: var(--belt); }
#play { min-width: 102px; font-weight: 700; }
#speed { width: 110px; } #pace { min-width: 16ch; font-variant-numeric: tabular-nums; }
#hint {
  position: absolute; left: 50%; top: 66%; transform: translate(-50%, -50%); padding: 8px 18px; white-space: nowrap;
  font-size: 17px; font-weight: 700; border: 2px solid var(--ink); border-radius: 24px;
}
#hint[hidden], #hint .tap { display: none; }
canvas { width: 100%; height: 217px; display: block; cursor: col-resize; touch-action: pan-y; }
#word { display: flex; flex-wrap: wrap; gap: 6px; align-items: flex-start; }
.field { display: flex; flex-direction: column; align-items: center; } .field small { color: var(--soft); }
.field small { white-space: nowrap; }
.bit { display: inline-block; height: 19px; text-align: center; border: 1px solid var(--line); }
.bit { width: clamp(11px, 1vw, 17px); margin-left: -1px; }
.bit.flip { border-color: var(--ink); box-shadow: 0 -3px var(--ink), 0 3px var(--ink); position: relative; z-index: 1; }
.alone main { display: block; } .alone section:not(#wordbox) { display: none; }
.alone #wordbox { margin-top: 8px; }
.alone #word { font-size: 22px; gap: 14px; } .alone .bit { width: 21px; height: 36px; }
.unseen { position: absolute; clip-path: inset(50%); width: 1px; height: 1px; overflow: hidden; white-space: nowrap; }
@media (min-width: 901px) and (max-width: 1250px) { #machines tr { height: 39px; } }
@media (max-width: 1100px) { #keys { display: none; } }
@media (max-width: 900px) {
  main { grid-template-columns: minmax(0, 1fr); }
  main { grid-template-areas: "head" "cell" "word" "time" "side" "legend" "state"; }
  #legend { grid-template-columns: minmax(0, 1fr); }
  #cell { height: auto; } #log { flex: none; height: 220px; } #machines tr { height: 39px; }
}
@media (pointer: coarse) {
  #keys, #hint .key { display: none; } #hint .tap { display: inline; }
  button { min-height: 44px; min-width: 44px; } #speed { height: 32px; }
}
@media (max-width: 560px) {
  main { padding: 0 4px 4px; gap: 4px; } section { padding: 5px; }
  header { padding-top: 4px; } #kind, .keys button span { display: none; }
  .keys { gap: 4px; justify-content: space-between; } .keys button { padding: 6px 4px; min-width: 42px; }
  .keys #play { min-width: 96px; } .told { margin-top: 0; gap: 0 10px; } #where { font-size: 13px; }
  svg .long, svg .step { display: none; } svg .short { display: inline; }
  svg text { font-size: 20px; } svg .name { font-size: 21px; } svg .small { font-size: 17px; }
  #hint { padding: 4px 14px; font-size: 15px; min-height: 0; }
  #word { gap: 3px 5px; } #word, #log, pre { font-size: 11px; } .bit { width: 10px; height: 17px; }
}
:root {
  --of-feed: #0072b2; --of-table: #009e73; --of-robot: #e69f00; --of-press: #d55e00; --of-deposit: #cc79a7;
  --of-crane: #56b4e9; --on-feed: #fff;
}
@media (prefers-color-scheme: dark) { :root { --of-feed: #3d9bdc; --on-feed: #000; } }
</style>
<main>
<header>
  <div class="keys">
    <button id="first" aria-label="To the start">|&#9664;</button>
    <button id="lastchange" aria-label="To the change before">&#9664;&#9664;<span> change</span></button>
    <button id="lastturn" aria-label="To the turn before">&#9664;<span> turn</span></button>
    <button id="play">&#9654; play</button>
    <button id="nextturn" aria-label="To the next turn"><span>turn </span>&#9654;</button>
    <button id="nextchange" aria-label="To the next change"><span>change </span>&#9654;&#9654;</button>
    <button id="end" aria-label="To the end">&#9654;|</button>
    <label>speed <input id="speed" type="range" min="0" max="10"></label><span id="pace" class="soft"></span>
    <span id="keys" class="soft">Keys: space; &#8592; &#8594; turns; shift &#8592; &#8594; changes; Home, End.</span>
    <a href="#legend">legend</a>
  </div>
  <div class="told">
    <h1><span id="kind">The production cell, turn by turn: </span><span id="title"></span></h1>
    <p id="where"></p>
    <p id="banner" class="alarm"></p>
    <p id="note" class="soft"></p>
    <p id="said" class="unseen" role="status"></p>
    <noscript>A script in this page plays the film; the browser doesn't run it.</noscript>
  </div>
</header>
<section id="cellbox">
  <svg id="cell" viewBox="0 0 790 470" role="img"></svg>
  <button id="hint" hidden>&#9654; <span class="key">press space</span><span class="tap">tap to play</span></button>
</section>
<section id="side">
  <table aria-label="Machines"><tbody id="machines"></tbody></table>
  <div id="log" aria-label="Calls up to this turn"></div>
</section>
<section id="wordbox">
  <div id="word"></div>
</section>
<section id="time">
  <canvas id="lanes" role="slider" tabindex="0" aria-label="Turn" aria-valuemin="0"></canvas>
</section>
<section id="legend">
  <p class="soft"><b>The picture.</b> A zone has the colour of its owner, grey if it is free. Its border: full is
  closed, dashed is open, dotted and hatched is moving. Open is in (openin: plates come to the host) or out
  (openout: plates leave it); a dot is a plate on its way. A red arrow: waits for, by its last call; full arrows are
  a standstill. <span id="plant"></span></p>
  <p class="soft"><b>The word.</b> The whole interlock, bit by bit; a framed bit has changed in this turn. A zone
  has its posture (closed 00, moving 01, in 10, out 11), a bit for a plate on its way, and its owner (free 00, host
  01, guest 10). mark: the watch has stopped the machines. -: always 0. To project it alone: <a
  href="#word">#word</a>.</p>
  <p class="soft"><b>The lanes.</b> A row a zone: its host's time above, its guest's below, never both; a stripe is
  a plate on its way, hatched is moving. A row a machine: tall is done, middle drives, low waits, flat is busy.
  In a simulation nobody calls at the same time: a capital letter in the schedule makes the interlock answer busy.
  Shaded: the watch has stopped the machines. A click goes to a turn.</p>
</section>
<section id="statebox">
  <details open><summary>This state in the words of a report</summary><pre id="state"></pre></details>
</section>
</main>
<script>
"use strict";
// What the pictures of all plants share: plates, zones with their labels, cards of machines, and arrows of waits.

const get = (id) => document.getElementById(id);
const SHORT = {closed: "shut", moving: "moves", openin: "in", openout: "out"};

const tag = (name, attributes, inner = "") =>
  `<${name}${Object.entries(attributes).map(([key, value]) => ` ${key}="${value}"`).join("")}>${inner}</${name}>`;
const paint = (fill, stroke = "none", width = 1, more = {}) => ({fill, stroke, "stroke-width": width, ...more});
const circle = ([cx, cy], r, style) => tag("circle", {cx, cy, r, ...style});
const rect = (x, y, width, height, rx, style) => tag("rect", {x, y, width, height, rx, ...style});
const path = (d, style) => tag("path", {d, ...style});
const write = (x, y, kind, text, anchor = "middle", fill = "var(--ink)") =>
  tag("text", {x, y, class: kind, "text-anchor": anchor, style: "fill:" + fill}, text);
const colour = (machine) => (machine ? `var(--of-${machine})` : "var(--soft)");
const inkOn = (machine) => `var(--on-${machine}, #000)`;
const markOf = (machine) => MARKS[machine] || machine[0].toUpperCase();
const plateColour = (isForged) => `var(--${isForged ? "forged" : "plate"})`;
const INK = "var(--ink)", CARD = "var(--card)", SOFT = "var(--soft)", ALARM = "var(--alarm)", BELT = "var(--belt)";

function plate([x, y], number, isForged) {
  if (!number) return "";
  const ring = isForged ? circle([x, y], 12, paint("none", "#fff", 1.5)) : "";
  const text = write(x, y + 6, "number", number, "middle", isForged ? "#fff" : INK);
  return circle([x, y], 15, paint(plateColour(isForged), INK, 1.5)) + ring + text;
}

function zoneDrawn({at, r}, {owner, posture}) {
  const [width, dashes] = {closed: [4, "none"], moving: [3, "2 4"], openin: [2, "10 6"], openout: [2, "10 6"]}[posture];
  return circle(at, r, paint(colour(owner), "none", 1, {"fill-opacity": owner ? 0.38 : 0.12}))
    + (posture === "moving" ? circle(at, r, paint("url(#hatch)")) : "")
    + circle(at, r, paint("none", colour(owner), width, {"stroke-dasharray": dashes}));
}

// Wide enough for the longest text of a zone.
function labelWidth({name, host, guest}) {
  return Math.max(132, 6.6 * `${name} ${host.length > guest.length ? host : guest} openout *`.length);
}

function zoneLabel(zone, {owner, flag, posture}) {
  const {name, label: [x, y]} = zone, dot = flag ? " &#9679;" : "", half = labelWidth(zone) / 2;
  return rect(x - half, y - 12, 2 * half, 24, 12, paint(CARD, colour(owner), 2.5))
    + write(x, y + 4, "long", `${name} ${owner || "free"} ${posture}${dot}`)
    + write(x, y + 7, "short", `${name} ${owner ? markOf(owner) : "-"} ${SHORT[posture]}${dot}`);
}

// The style of a step's text: small enough that it ends within this width in a font with wide letters, too.
const stepStyle = (step, width) => `${SOFT};font-size:${Math.min(13, Math.floor(width / step.length / 0.062) / 10)}px`;

// Wide enough for the longest name.
const cardWidth = () => Math.min(Math.max(148, 44 + 12.3 * Math.max(...MACHINES.map((it) => it.length))), 220);

function card(machine, frame) {
  const [x, y] = CARDS[machine], i = MACHINES.indexOf(machine), {stopped} = frame.state;
  if (machine === "watch" && !stopped && !frame.asked[i][0]) return "";
  const isTurn = frame.machine === machine, wait = frame.waits[machine];
  const isBarred = machine === "watch" ? stopped : wait && wait.target === "watch";
  const watches = stopped ? "stopped " + NAMES.stopped : "looks on";
  const step = machine === "watch" ? watches : frame.steps[i].replace("!", ": ");
  const half = cardWidth() / 2, mark = 10 + 12 * markOf(machine).length, left = x - half + 8 + mark;
  return rect(x - half, y - 18, 2 * half, 36, 6, paint(CARD, isTurn ? INK : "var(--line)", isTurn ? 3 : 1))
    + rect(x - half + 3, y - 15, mark, 30, 4, paint(colour(machine)))
    + write(x - half + 3 + mark / 2, y + 5, "name", markOf(machine), "middle", inkOn(machine))
    + write(left, y - 2, "name long", machine, "start") + write(left, y + 7, "name short", machine, "start")
    + write(left, y + 12, "small step", step, "start", stepStyle(step, x + half - 4 - left))
    + (isBarred ? stopSign(x + half - 12, y - 7) : "");
}

function stopSign(x, y) {
  return path(`M${x - 4} ${y - 10}h8l6 6v8l-6 6h-8l-6 -6v-8z`, paint(ALARM))
    + path(`M${x - 6} ${y}h12`, paint("none", CARD, 4));
}

// Between two machines the arrows of both directions keep to their right.
function arrow([machine, {target}], ring) {
  const pair = [machine, target];
  const zone = ZONES.find(({host, guest}) => pair.includes(host) && pair.includes(guest));
  if (!zone) return "";
  let [x1, y1, x, y, x2, y2] = zone.way;
  if (zone.guest === machine) [x1, y1, x2, y2] = [x2, y2, x1, y1];
  const length = Math.hypot(x2 - x1, y2 - y1), dx = -(y2 - y1) / length * 6, dy = (x2 - x1) / length * 6;
  const d = `M${x1 + dx} ${y1 + dy}Q${x + dx} ${y + dy} ${x2 + dx} ${y2 + dy}`;
  const kind = ring.includes(machine) && ring.includes(target) ? "wait ring" : "wait";
  return path(d, {class: "halo"}) + path(d, {class: kind, "marker-end": "url(#head)"});
}

function arrows(frame) {
  const ring = ringOf(frame);
  return Object.entries(frame.waits).map((wait) => arrow(wait, ring)).join("");
}

const DEFS = `<defs><marker id="head" viewBox="0 0 8 8" refX="6" refY="4" markerWidth="15" markerHeight="15"
 markerUnits="userSpaceOnUse" orient="auto"><path d="M0 0 8 4 0 8z" fill="var(--alarm)"/></marker>
<pattern id="hatch" width="8" height="8" patternTransform="rotate(45)" patternUnits="userSpaceOnUse">
<rect width="3" height="8" fill="var(--ink)" opacity=".3"/></pattern></defs>`;

// A plant's own drawing lies below the labels and above the zones, and what it stands on below those.
function pictureOf(frame, ground, things) {
  const {zones} = frame.state, each = (drawn) => ZONES.map((zone, i) => drawn(zone, zones[i])).join("");
  const cards = MACHINES.map((machine) => card(machine, frame)).join("");
  return DEFS + ground + each(zoneDrawn) + things + each(zoneLabel) + cards + arrows(frame);
}

// The production cell: what its lines say, its picture and its collisions. player.js plays them.

const MACHINES = ["feed", "table", "robot", "press", "deposit", "crane", "watch"];
const LETTERS = "ftrpdcw", PLACES = 10;

// What a machine's part in a line is: axes, plates on a belt, switches.
const PARTS = {
  feed: ["feedEntry", "feedLast", "feedRuns"], table: ["lift", "turn"],
  robot: ["arm1", "arm2", "rotation", "magnet1", "magnet2"], press: ["press"],
  deposit: ["depositEntry", "depositLast", "depositRuns"], crane: ["travel", "gripper", "magnet"], watch: [],
};
const ENDS = {lift: 600, turn: 500, arm1: 1000, arm2: 1000, rotation: 2000, press: 1000, travel: 2000, gripper: 1000};

// The picture: the robot's axis, what its arms reach, and the ends of the belts.
const ROBOT = [262, 250], TABLE = [330, 132], PRESS = [104, 250], DEPOSIT = [330, 368], END = 680;
// A zone with its place in the picture, its label's, and the way of an arrow from host to guest.
const placed = (name, host, guest, at, r, label, way) => ({name, host, guest, at, r, label, way});
const ZONES = [
  placed("z1", "table", "feed", [370, 132], 34, [484, 92], [360, 158, 440, 206, 520, 158]),
  placed("z2", "table", "robot", [310, 167], 30, [214, 148], [356, 166, 386, 190, 398, 228]),
  placed("z3", "press", "robot", PRESS, 46, [104, 312], [152, 270, 188, 302, 216, 286]),
  placed("z4", "deposit", "robot", DEPOSIT, 40, [226, 372], [402, 344, 402, 308, 402, 272]),
  placed("z5", "deposit", "crane", [END, 368], 37, [664, 424], [570, 344, 570, 308, 570, 272]),
  placed("z6", "feed", "crane", [END, 132], 37, [664, 76], [570, 156, 570, 192, 570, 228]),
];
const CARDS = {
  feed: [500, 40], table: [330, 40], robot: [402, 250], press: [92, 182], deposit: [480, 424], crane: [570, 250],
  watch: [92, 40],
};
// From which place to which a plate goes in a zone, by the zone's posture; places are numbered from 0.
const WAYS = {
  "z1 openin": [1, 2], "z2 openout": [2, 3], "z3 openin": [3, 4], "z3 openout": [5, 6], "z4 openin": [6, 7],
  "z5 openout": [8, 9], "z6 openin": [9, 0],
};
const WORK = {feed: [0, 1], deposit: [7, 8], press: [4, 5]};

// Machines that aren't marked by their first letter; whether who was refused asks it again.
const MARKS = {}, ASK_AGAIN = true;
const NAMES = {place: "places 10 to 1", stopped: "the cell"};
const LEGEND = "A plate is grey as a blank and brown with a ring once forged; a thick circle is a magnet that is on.";

const COLLISIONS = [
  "an arm with the press", "the table with an arm", "the deposit belt", "the feed belt", "the crane", "the robot",
  "a plate that misses the table", "a plate that falls", "an axis with its end",
];

function setPart(frame, machine, part) {
  frame.at = {...frame.at};
  frame.motor = {...frame.motor};
  part.forEach((text, i) => {
    const name = PARTS[machine][i];
    frame.at[name] = text === "" ? null : parseInt(text, 10);
    frame.motor[name] = text.endsWith("+") ? 1 : text.endsWith("-") ? -1 : 0;
  });
}

function firstFrame(line) {
  const [, word, ...machines] = line.split(";");
  const frame = {steps: MACHINES.map(() => ""), asked: MACHINES.map(() => ["", ""]), waits: {}, call: "", answer: ""};
  frame.word = BigInt("0x" + word);
  frame.state = unpacked(frame.word);
  machines.forEach((text, i) => {
    const [step, ...part] = text.split(",");
    frame.steps[i] = step;
    setPart(frame, MACHINES[i], part);
  });
  frame.plates = firstPlates(frame.state);
  return frame;
}

function nextFrame(before, line) {
  const [letter, step, call, answer, word, part] = line.split(";");
  const i = LETTERS.indexOf(letter.toLowerCase());
  const frame = {...before, machine: MACHINES[i]};
  if (line.length > 1) {
    frame.asked = replaced(before.asked, i, [call, answer]);
    if (step) frame.steps = replaced(before.steps, i, step);
    if (part) setPart(frame, MACHINES[i], part.split(","));
    if (word) {
      frame.word = BigInt("0x" + word);
      frame.state = unpacked(frame.word);
    }
  }
  [frame.call, frame.answer] = frame.asked[i];
  const isOn = (name) => frame.motor[name] || (name.endsWith("Runs") && frame.at[name]);
  frame.drives = !frame.call && PARTS[frame.machine].some(isOn);
  if (frame.answer === "done") frame.plates = movedPlates(before, frame);
  // A machine waits while its step stays where it was refused, or where it looked and saw nothing for it.
  const stays = frame.call && frame.steps[i] === before.steps[i] && !["done", "busy", "memory"].includes(frame.answer);
  frame.waits = waitsAfter(before, frame, stays, frame.steps[i].includes("!"));
  return frame;
}

// ---- Collisions, as docs/PLANT.md has them: in each state, and between set and move.

function collisionIn(at, motor) {
  const turned = (low, high) => at.rotation >= low && at.rotation <= high;
  const rests = (low, high) => !motor.press && at.press >= low && at.press <= high;
  const out1 = at.arm1 > 50, out2 = at.arm2 > 50, isDown = at.gripper < 800, tableMoves = motor.lift || motor.turn;
  const found = [
    (out1 && turned(1400, 1600) && !rests(490, 510)) || (out2 && turned(500, 700) && !rests(0, 10)),
    tableMoves && out1 && turned(200, 400),
    at.depositRuns && ((out2 && turned(1700, 1900)) || (isDown && at.travel <= 200) || at.depositLast !== null),
    at.feedRuns && isDown && at.travel >= 1800,
    motor.travel && isDown,
    motor.rotation && (out1 || out2),
    at.feedRuns && at.feedLast !== null && (tableMoves || at.lift > 10 || at.turn > 20),
  ];
  return found.findIndex((is) => is) + 1;
}

// A magnet that goes off where no plate may be put, and an axis that is driven beyond its end.
function collisionOnSet(before, set, motor, machine) {
  const near = (name, low, high) => set[name] >= low && set[name] <= high;
  const drops = (name) => before[name] && !set[name];
  if (drops("magnet1") && !(near("rotation", 1460, 1540) && near("arm1", 760, 840))) return 8;
  if (drops("magnet2") && !(near("rotation", 1760, 1840) && near("arm2", 560, 640))) return 8;
  if (drops("magnet") && !(set.travel >= 1990 && near("gripper", 250, 350))) return 8;
  const isDriven = (name) => (motor[name] > 0 && set[name] >= ENDS[name]) || (motor[name] < 0 && set[name] <= 0);
  return PARTS[machine].some((name) => ENDS[name] && isDriven(name)) ? 9 : 0;
}

function collisionAfter(before, frame) {
  if (frame.at === before.at && !frame.drives) return 0;
  const set = {...frame.at};
  for (const name of Object.keys(ENDS)) set[name] = before.at[name];
  const onSet = collisionIn(set, frame.motor) || collisionOnSet(before.at, set, frame.motor, frame.machine);
  return onSet || collisionIn(frame.at, frame.motor);
}

// ---- The film: its frames up to the first collision, and what it says of itself.

function filmOf(text) {
  const [start, ...lines] = text.trim().split("\n"), cut = lines.length && lines[lines.length - 1].startsWith("cut ");
  const film = {frames: [firstFrame(start)]}, turns = cut && lines.pop().slice(4);
  film.collision = collisionIn(film.frames[0].at, film.frames[0].motor);
  for (let k = 0; k < lines.length && !film.collision; k++) {
    film.frames.push(nextFrame(film.frames[k], lines[k]));
    film.collision = collisionAfter(film.frames[k], film.frames[k + 1]);
  }
  film.last = film.frames.length - 1;
  film.note = cut ? `The schedule has ${turns} turns: the film shows the first ${film.last}.` : "";
  return film;
}

// ---- The picture.

const angleOf = (at, arm) => (at.rotation / 10 + (arm === 1 ? 30 : 120)) * Math.PI / 180;
const onArm = (at, arm, r) => [ROBOT[0] + r * Math.cos(angleOf(at, arm)), ROBOT[1] - r * Math.sin(angleOf(at, arm))];
const tip = (at, arm) => onArm(at, arm, 70 + at["arm" + arm] * 0.11);
const craneAt = (at) => [END, DEPOSIT[1] - at.travel / 2000 * (DEPOSIT[1] - TABLE[1])];
const onFeed = (p) => [p < 900 ? END - p * 0.32 : 392 - (Math.min(p, 1000) - 900) * 0.62, TABLE[1]];
const onDeposit = (p) => [DEPOSIT[0] + Math.min(p, 1000) * 0.35, DEPOSIT[1]];

// Plates lie where they are: on an arm or at the gripper while its magnet is on, else where they were put.
function platesDrawn({at, plates, state}) {
  const arm1 = at.magnet1 && tip(at, 1), arm2 = at.magnet2 && tip(at, 2), gripper = at.magnet && craneAt(at);
  const opensOut = state.zones[2].posture === "openout";
  const places = [
    onFeed(at.feedEntry || 0), onFeed(at.feedLast || 0), TABLE, arm1 || PRESS, PRESS, PRESS, arm2 || DEPOSIT,
    onDeposit(at.depositEntry || 0), onDeposit(at.depositLast || 0), gripper || onFeed(0),
  ];
  const zones = [TABLE, arm1 || TABLE, (opensOut && arm2) || PRESS, DEPOSIT, gripper || onDeposit(1000), onFeed(0)];
  const isForged = (i) => [5, 6, 7, 8, 13, 14].includes(i) || (i === 9 && gripper) || (i === 12 && opensOut);
  return [...places, ...zones].map((place, i) => plate(place, plates[i], isForged(i))).join("");
}

function belt(machine, x1, x2, y, runs, direction, shift) {
  let text = rect(x1, y - 21, x2 - x1, 42, 8, paint(BELT, colour(machine), runs ? 4 : 1.5));
  for (let x = x1 + 12 + ((shift % 26) + 26) % 26; x < x2 - 10; x += 26) {
    const d = `M${x - 4 * direction} ${y - 9}l${8 * direction} 9l${-8 * direction} 9`;
    text += path(d, paint("none", runs ? colour(machine) : "var(--line)", 2.5));
  }
  return text;
}

function barrier(y, x1, x2, ...plates) {
  const isOn = plates.some((p) => p !== null && p >= 900 && p < 1000);
  const style = {"fill-opacity": 0.3, "stroke-dasharray": "2 3"};
  return rect(x1, y - 26, x2 - x1, 52, 0, paint(isOn ? ALARM : "none", ALARM, 1, style));
}

function belts({at}) {
  const fed = -0.32 * (at.feedEntry || at.feedLast || 0), put = 0.35 * (at.depositEntry || at.depositLast || 0);
  return belt("feed", 362, END + 36, TABLE[1], at.feedRuns, -1, fed)
    + barrier(TABLE[1], onFeed(999)[0], onFeed(900)[0], at.feedEntry, at.feedLast)
    + belt("deposit", DEPOSIT[0] - 12, END + 36, DEPOSIT[1], at.depositRuns, 1, put)
    + barrier(DEPOSIT[1], onDeposit(900)[0], onDeposit(999)[0], at.depositEntry, at.depositLast);
}

function heights(x, y, height, value, end, marks, machine) {
  const level = (v) => y + height - v / end * height;
  const lines = Object.entries(marks).map(([name, v]) =>
    path(`M${x - 3} ${level(v)}h15`, paint("none", SOFT)) + write(x - 6, level(v) + 4, "small", name, "end", SOFT));
  return rect(x, y, 9, height, 3, paint(BELT, SOFT)) + lines.join("")
    + rect(x - 4, level(value) - 4, 17, 8, 2, paint(colour(machine), INK));
}

function tableDrawn({at}) {
  const [x, y] = TABLE, angle = -at.turn / 500 * 120 * Math.PI / 180, dx = Math.cos(angle), dy = -Math.sin(angle);
  return circle(TABLE, 29, paint(CARD, colour("table"), 3))
    + path(`M${x + 19 * dx} ${y + 19 * dy}L${x + 29 * dx} ${y + 29 * dy}`, paint("none", INK, 6))
    + heights(276, 80, 48, at.lift, 600, {belt: 0, arm: 600}, "table");
}

// The press from above, and beside it from the side.
function pressDrawn({at, plates, state}) {
  const [x, y] = PRESS, opensOut = state.zones[2].posture === "openout";
  const isHanded = plates[12] && !(opensOut && at.magnet2), isPut = plates[3] && !at.magnet1;
  return rect(x - 34, y - 34, 68, 68, 6, paint(CARD, colour("press"), 3))
    + pressFromSide(444 - at.press / 1000 * 76, plates[4] || plates[5] || isHanded || isPut, plates[5] || opensOut);
}

function pressFromSide(top, hasPlate, isForged) {
  const marks = Object.entries({forge: 368, "arm 1": 406, "arm 2": 444}).map(([name, y]) =>
    path(`M26 ${y}h76`, paint("none", SOFT)) + write(105, y + 4, "small", name, "start", SOFT));
  return rect(18, 336, 136, 126, 6, paint(CARD, "var(--line)")) + rect(30, 342, 66, 14, 3, paint(SOFT)) + marks.join("")
    + rect(56, top, 14, 456 - top, 0, paint(BELT, SOFT)) + rect(30, top, 66, 10, 3, paint(colour("press"), INK))
    + (hasPlate ? rect(46, top - 8, 34, 7, 0, paint(plateColour(isForged), INK)) : "");
}

function armDrawn(at, arm, width) {
  const end = tip(at, arm), [x, y] = onArm(at, arm, 46), isOn = at["magnet" + arm];
  const line = paint("none", colour("robot"), width, {"stroke-linecap": "round"});
  return path(`M${ROBOT}L${end}`, line) + circle(end, 18, paint("none", isOn ? INK : colour("robot"), isOn ? 5 : 2))
    + write(x, y + 5, "number", arm, "middle", "#000");
}

function robotDrawn({at}) {
  return armDrawn(at, 2, 15) + armDrawn(at, 1, 19) + circle(ROBOT, 24, paint(CARD, colour("robot"), 5));
}

function craneDrawn({at}) {
  const [x, y] = craneAt(at), own = colour("crane");
  return path(`M${END} ${TABLE[1] - 34}V${DEPOSIT[1] + 34}`, paint("none", SOFT, 3))
    + rect(x - 27, y - 11, 80, 22, 5, paint(own, own, 2, {"fill-opacity": 0.5}))
    + circle([x, y], 19, paint("none", at.magnet ? INK : own, at.magnet ? 5 : 2))
    + heights(750, 176, 140, at.gripper, 1000, {plate: 100, feed: 300, travel: 900}, "crane");
}

// Where the collision is, in red.
function burst(number, {at, machine}) {
  const arm = (n) => at["arm" + n] > 50, lost = machine === "crane" ? craneAt(at) : tip(at, arm(2) ? 2 : 1);
  const belt = at.gripper < 800 ? onDeposit(1000) : DEPOSIT;
  const [x, y] = [null, PRESS, TABLE, belt, onFeed(0), craneAt(at), ROBOT, TABLE, lost][number] || CARDS[machine];
  const points = Array.from({length: 24}, (_, i) => {
    const r = i % 2 ? 52 : 66, angle = i * Math.PI / 12;
    return [x + r * Math.cos(angle), y + r * Math.sin(angle)];
  });
  return tag("polygon", {points: points.join(" "), ...paint(ALARM, ALARM, 5, {"fill-opacity": 0.25})});
}

function picture(frame, collision) {
  const things = [tableDrawn, pressDrawn, robotDrawn, craneDrawn, platesDrawn].map((drawn) => drawn(frame)).join("");
  return pictureOf(frame, belts(frame), things + (collision ? burst(collision, frame) : ""));
}

// The last lines of a report.
function axesOf({at}) {
  const axes = ["press", "arm1", "arm2", "rotation", "lift", "turn"].map((name) => `${name} ${at[name]}`).join(" ");
  return [`axes ${axes} crane ${at.travel} gripper ${at.gripper}`];
}
</script>
<script id="lines" type="text/plain">
"##;

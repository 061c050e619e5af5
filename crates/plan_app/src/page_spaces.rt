//! The end of a page of a plan in which a zone has several guests, after its lines.
//! `tools/film_page` makes this file of `page.html` and others: change those.

/// The end of a page of a plan in which a zone has several guests, after its lines.
pub const SPACES_TAIL: &str = r##"</script>
<script>
"use strict";
// Plays a film of a plant: its frames, the page's words, lanes, bar, keys and pointer.

const POSTURES = ["closed", "moving", "openin", "openout"];

// The word: the first side of a zone has two to four bits for the owner, by how many guests there are; each side has one
// for a plate if a way leads through it, and none, one or two for its posture, by how many it may have; then one a
// place, twenty for the stamp, one for the stop.
const FIRST = ZONES.map((zone, i) => { while (ZONES[i].joins) i--; return i; });
const OWNERS = FIRST.map((first) => [null, ZONES[first].host, ...ZONES.filter((zone, i) => FIRST[i] === first).map(({guest}) => guest)]);
const OWNER_BITS = FIRST.map((first, i) => first !== i ? 0 : OWNERS[i].length < 5 ? 2 : OWNERS[i].length < 9 ? 3 : 4);
const FIELDS = ZONES.map(({name, postures = POSTURES}) => ({
  postures, flag: POSTURES.some((it) => WAYS[name + " " + it]) ? 1 : 0, posture: postures.length >> 1,
}));
const LOWS = FIELDS.reduce((lows, {flag, posture}, i) => [...lows, lows[i] + OWNER_BITS[i] + flag + posture], [0]);
const STAMP = LOWS[ZONES.length] + PLACES, UNUSED = 64 - (STAMP + 21);

const zoneOf = (name) => ZONES.findIndex((zone) => zone.name === name);

// ---- Frames: the state after each turn. They share what doesn't change.

function unpacked(word) {
  const bits = (low, count) => Number((word >> BigInt(low)) & ((1n << BigInt(count)) - 1n));
  const zones = ZONES.map((zone, i) => {
    const owner = OWNERS[i][bits(LOWS[FIRST[i]], OWNER_BITS[FIRST[i]])], {postures, flag, posture} = FIELDS[i];
    const low = LOWS[i] + OWNER_BITS[i];
    return {owner, flag: bits(low, flag), posture: postures[bits(low + flag, posture)]};
  });
  const places = Array.from({length: PLACES}, (_, i) => bits(LOWS[ZONES.length] + i, 1));
  const plates = places.filter((full) => full).length + zones.filter((zone) => zone.flag).length;
  return {zones, places, plates, stamp: bits(STAMP, 20), stopped: bits(STAMP + 20, 1)};
}

// Plates have numbers: who is at each place, and then in each zone.
function firstPlates({places}) {
  let count = 0;
  return [...places.map((full) => (full ? ++count : 0)), ...ZONES.map(() => 0)];
}

function replaced(list, i, item) {
  const copy = list.slice();
  copy[i] = item;
  return copy;
}

function movedPlates(before, frame) {
  const [verb, name] = frame.call.split(" ");
  const zone = zoneOf(name);
  const plates = before.plates.slice();
  const move = (from, to) => {
    plates[to] = plates[from];
    plates[from] = 0;
  };
  const way = zone >= 0 && WAYS[name + " " + before.state.zones[zone].posture];
  if (verb === "give" && way) move(way[0], PLACES + zone);
  if (verb === "take" && way) move(PLACES + zone, way[1]);
  if (verb === "advance") move(...WORK[frame.machine]);
  return plates;
}

// Whom each machine waits for. One that stays where it was refused waits for the other party of the zone, or for who
// is named.
function waitsAfter(before, frame, stays, isOver) {
  const {machine, call, answer} = frame, last = before.waits[machine];
  if (!stays && !last) return before.waits;
  const waits = {...before.waits};
  delete waits[machine];
  if (!stays || isOver) return waits;
  const why = call + ": " + answer, [verb, name] = call.split(" "), [word, who] = answer.split(" ");
  const zone = ZONES[zoneOf(word === "platein" ? who : verb === "pose" ? "" : name)];
  let target = zone && (zone.host === machine ? zone.guest : zone.host);
  if ((word === "held" || word === "notowner") && who !== "free") target = who;
  if (word === "stopped") target = "watch";
  const count = last && last.why === why ? last.count + 1 : 1;
  waits[machine] = {target, why, count, stamp: frame.state.stamp};
  return waits;
}

// The ring of machines in which each waits for the next, if there is one. All were refused in this very state, ask the
// same again, and only the next could change what they wait for: so it is a standstill.
function ringOf({waits, state}) {
  if (!ASK_AGAIN) return [];
  const next = (machine) => waits[machine] && waits[machine].stamp === state.stamp && waits[machine].target;
  for (const first of MACHINES) {
    const ring = [first];
    for (let it = next(first); it && !ring.includes(it); it = next(it)) ring.push(it);
    if (next(ring[ring.length - 1]) === first) return ring;
  }
  return [];
}

// ---- Words: machines, calls, the word, the state as a report has it.

const textOf = (zone, i) => `zone ${ZONES[i].name} ${zone.owner || "free"} ${zone.flag} ${zone.posture}`;

function reportOf(frame) {
  const {zones, places, stamp, plates, stopped} = frame.state;
  const last = `stamp ${stamp} plates ${plates} stopped ${stopped}`;
  return [...zones.map(textOf), "places " + places.join(""), ...axesOf(frame), last].join("\n");
}

// How wide the columns of the calls are.
const longest = (texts, least) => Math.max(least, ...texts.map((it) => it.length + 1));
const WHO = longest(MACHINES, 8), WHAT = longest(ZONES.map(({name}) => "inquire " + name), 16);

const times = (count) => (count > 1 ? " &#215;" + count : "");

function doing(frame, machine, i) {
  const wait = frame.waits[machine], [step, status] = frame.steps[i].split("!");
  if (status) return `<span class="alarm">stopped: ${status}</span>`;
  if (wait) return `waits: ${wait.why}${times(wait.count)}`;
  if (frame.machine === machine && frame.call) return `<b>${frame.call}: ${frame.answer}</b>`;
  return frame.machine === machine && frame.drives ? "drives" : "";
}

function machineRows(frame) {
  return MACHINES.map((machine, i) => {
    const style = `background:${colour(machine)};color:${inkOn(machine)}`;
    return `<tr><td><span class="chip" style="${style}">${markOf(machine)}</span><td><b>${machine}</b>`
      + `<td>${frame.steps[i].split("!")[0]}<td>${doing(frame, machine, i)}`;
  }).join("");
}

// The calls up to a turn, the last one below. Equal calls of a machine that follow one another are one line.
function callRows(frames, now) {
  const rows = [], last = {};
  for (let k = now; k > 0 && rows.length < 40 && k > now - 5000; k--) {
    const {machine, call, answer, state, waits: {[machine]: wait}} = frames[k], row = last[machine];
    const text = call && machine.padEnd(WHO) + call.padEnd(WHAT) + answer, kind = answer === "done" ? "done" : "soft";
    if (row && row.text === text && kind === "soft") row.count += row.waits ? 0 : 1;
    else {
      last[machine] = {text, kind, waits: wait, count: wait ? wait.count : 1, stamp: state.stamp};
      if (call) rows.push(last[machine]);
    }
  }
  return rows.reverse().map(({text, count, stamp, kind}) =>
    `<div class="${kind}">${String(stamp).padStart(5)} ${text}${times(count)}</div>`).join("");
}

function wordDrawn(frame, before) {
  const flips = frame.word ^ before.word;
  const field = (name, low, count, fill, ink = "#000") => {
    let bits = "";
    for (let i = low + count - 1; i >= low; i--) {
      const isOne = (frame.word >> BigInt(i)) & 1n, flip = (flips >> BigInt(i)) & 1n ? " flip" : "";
      const style = isOne ? ` style="background:${fill};color:${ink}"` : "";
      bits += `<span class="bit${flip}"${style}>${isOne}</span>`;
    }
    return `<span class="field"><span>${bits}</span><small>${name}</small></span>`;
  };
  const {zones, stamp, stopped} = frame.state, whole = "0x" + frame.word.toString(16).padStart(16, "0");
  const ofZone = ({owner}, i) =>
    field(`${ZONES[i].name} ${owner || "free"}`, LOWS[i], LOWS[i + 1] - LOWS[i],
      colour(owner || "watch"), inkOn(owner));
  return `<span class="field"><b>${whole}</b><small>the whole interlock</small></span>`
    + (UNUSED ? field("-", STAMP + 21, UNUSED, ALARM) : "") + field(stopped ? "stopped" : "stop", STAMP + 20, 1, ALARM)
    + field("stamp " + stamp, STAMP, 20, "#9aa7b4")
    + (PLACES ? field(NAMES.place, STAMP - PLACES, PLACES, "#d2a24c") : "") + zones.map(ofZone).reverse().join("");
}

function sentence(frame, now) {
  const {machine, call, answer, drives} = frame;
  const deed = call ? `${call}, ${answer}` : drives ? "drives" : "does nothing";
  return `turn ${now}: ` + (machine ? machine + " " + deed : "the start");
}

// ---- Lanes: who has had each zone, and what each machine did. A canvas knows no CSS, so colours are read for it.

const LEFT = Math.max(30, 12 + 7.8 * Math.max(...ZONES.map(({name}) => name.length)));
const ROW = 20, MACHINE_ROW = 13, ZONE_ROWS = ZONES.length * ROW + 4, hues = {}, hueOf = {}, inkOf = {};

function lanesDrawn(film, width, height, scale) {
  const canvas = document.createElement("canvas"), style = getComputedStyle(document.documentElement);
  const read = (name) => style.getPropertyValue("--" + name).trim();
  ["ink", "soft", "alarm", "lane"].forEach((name) => (hues[name] = read(name)));
  MACHINES.forEach((machine) => {
    [hueOf[machine], inkOf[machine]] = [read("of-" + machine), read("on-" + machine) || "#000"];
  });
  [canvas.width, canvas.height] = [width * scale, height * scale];
  const pen = canvas.getContext("2d");
  const x = (k) => LEFT + k / Math.max(film.last, 1) * (width - LEFT - 4);
  pen.scale(scale, scale);
  ZONES.forEach((zone, i) => zoneLane(pen, film, zone, i, x));
  MACHINES.forEach((machine, i) => machineLane(pen, film, machine, ZONE_ROWS + i * MACHINE_ROW, x));
  stretches(film.frames, (frame) => frame.state.stopped, (stopped, from, to) => {
    pen.globalAlpha = 0.2;
    if (stopped) bar(pen, hues.alarm, x(from), 0, Math.max(x(to) - x(from), 2), height);
    pen.globalAlpha = 1;
  });
  return canvas;
}

// Calls `each` with the stretches of turns over which a value stays.
function stretches(frames, valueOf, each) {
  let from = 0, value = valueOf(frames[0]);
  for (let k = 1; k <= frames.length; k++) {
    const next = k < frames.length && valueOf(frames[k]);
    if (k < frames.length && next === value) continue;
    each(value, from, Math.min(k, frames.length - 1));
    [from, value] = [k, next];
  }
}

function bar(pen, hue, x, y, width, height) {
  pen.fillStyle = hue;
  pen.fillRect(x, y, width, height);
}

function letter(pen, hue, text, x, y, size) {
  pen.font = `bold ${size}px system-ui, DejaVu Sans, sans-serif`;
  pen.fillStyle = hue;
  pen.fillText(text, x, y);
}

function zoneLane(pen, film, zone, i, x) {
  const y = i * ROW + 1, half = ROW / 2 - 1, topOf = (owner) => (owner === zone.host ? y : y + half);
  letter(pen, hues.ink, zone.name, 6, y + 13, 12);
  bar(pen, hues.lane, x(0), y, x(film.last) - x(0), 2 * half);
  stretches(film.frames, (frame) => textOf(frame.state.zones[i], i), (text, from, to) => {
    const [, , owner, flag, posture] = text.split(" "), top = topOf(owner), width = Math.max(x(to) - x(from), 0.8);
    if (owner !== "free") bar(pen, hueOf[owner], x(from), top, width, half);
    if (posture === "moving") for (let at = x(from) + 1; at < x(to); at += 5) bar(pen, "#0008", at, top, 1.5, half);
    if (flag === "1") bar(pen, "#000", x(from), top + 3, Math.max(width, 2), 3);
  });
  stretches(film.frames, (frame) => frame.state.zones[i].owner, (owner, from, to) => {
    if (!owner || x(to) - x(from) < 14) return;
    bar(pen, hueOf[owner], x(from), topOf(owner), 3 + 8 * markOf(owner).length, half);
    letter(pen, inkOf[owner], markOf(owner), x(from) + 2, topOf(owner) + 8.5, 10);
  });
}

// A turn is tall if it was done, middle if it drove, low if it waited, and flat if the interlock was busy.
function machineLane(pen, film, machine, y, x) {
  const width = Math.max(x(1) - x(0), 0.8);
  letter(pen, hues.ink, markOf(machine), 10, y + 10, 11);
  film.frames.forEach((frame, k) => {
    if (frame.machine !== machine) return;
    if (frame.answer === "done") bar(pen, hues.ink, x(k - 1), y, Math.max(width, 1.5), 11);
    else if (frame.drives) bar(pen, hueOf[machine], x(k - 1), y + 3, width, 8);
    else if (frame.answer === "busy") bar(pen, hues.soft, x(k - 1), y + 9, width, 2);
    else if (frame.call) bar(pen, hues.alarm, x(k - 1), y + 7, width, 4);
  });
}

// ---- The page: what is shown, keys and pointer.

const PICTURES = 30;
const film = filmOf(get("lines").textContent);
let now = 0, timer = 0, due = 0, linking = 0, lanes = null, drag = null;

function drawLanes() {
  const canvas = get("lanes"), width = canvas.clientWidth, height = canvas.clientHeight;
  const scale = window.devicePixelRatio || 1;
  if (!width) return;
  if (!lanes) lanes = lanesDrawn(film, width, height, scale);
  [canvas.width, canvas.height] = [lanes.width, lanes.height];
  const pen = canvas.getContext("2d");
  pen.drawImage(lanes, 0, 0);
  pen.scale(scale, scale);
  const x = LEFT + now / Math.max(film.last, 1) * (width - LEFT - 4);
  bar(pen, film.collision && now === film.last ? hues.alarm : hues.ink, x - 1, 0, 2.5, height);
}

function bannerOf(frame) {
  const {collision} = film, ring = ringOf(frame), way = [...ring, ring[0]].join(" \u2192 ");
  if (collision && now === film.last) return `Collision ${collision}: ${COLLISIONS[collision - 1]}. The film ends.`;
  if (ring.length) return `A standstill: ${way}. Each waits for the next, and none can go on.`;
  if (!frame.state.stopped) return "";
  return `The watch has stopped ${NAMES.stopped}: no claim, no give, and nothing begins to move.`;
}

function draw() {
  const frame = film.frames[now];
  get("cell").innerHTML = picture(frame, now === film.last ? film.collision : 0);
  get("machines").innerHTML = machineRows(frame);
  get("log").innerHTML = callRows(film.frames, now);
  get("word").innerHTML = wordDrawn(frame, film.frames[Math.max(now - 1, 0)]);
  get("state").textContent = reportOf(frame);
  get("banner").textContent = bannerOf(frame);
  get("kind").hidden = get("banner").textContent !== "";
  const plates = frame.state.plates + (frame.state.plates === 1 ? " plate" : " plates");
  const deed = isAlone() ? "; " + sentence(frame, now) : "";
  get("where").textContent = `turn ${now} of ${film.last}, stamp ${frame.state.stamp}, ${plates}${deed}`;
  get("hint").hidden = now > 0 || timer > 0;
  drawLanes();
}

// What is said to those who listen, and the link: not while it plays.
function tell() {
  const frame = film.frames[now], text = sentence(frame, now);
  get("said").textContent = text + (get("banner").textContent && ". " + get("banner").textContent);
  get("cell").setAttribute("aria-label", text + ". " + frame.state.zones.map(textOf).join(", "));
  get("lanes").setAttribute("aria-valuenow", now);
  get("lanes").setAttribute("aria-valuetext", text);
  clearTimeout(linking);
  linking = setTimeout(() => history.replaceState(null, "", (isAlone() ? "#word,t=" : "#t=") + now), 200);
}

function go(turn) {
  now = Math.min(Math.max(turn, 0), film.last);
  draw();
  if (!timer) tell();
}

function change(direction) {
  let turn = now + direction;
  while (turn > 0 && turn < film.last && film.frames[turn].answer !== "done") turn += direction;
  go(turn);
}

// ---- Speed: turns a second, a power of two.

const turnsASecond = () => 2 ** Number(get("speed").value);

function tellSpeed() {
  const text = turnsASecond() === 1 ? "1 turn a second" : turnsASecond() + " turns a second";
  get("pace").textContent = text;
  get("speed").setAttribute("aria-valuetext", text);
}

// Short films play slowly enough to be followed.
function firstSpeed() {
  get("speed").value = Math.min(Math.max(Math.floor(Math.log2(film.last / 15)), 1), 6);
  tellSpeed();
}

function nextPicture() {
  if (now === film.last) return play(false);
  due += turnsASecond() / PICTURES;
  const turns = Math.floor(due);
  due -= turns;
  if (turns) go(now + turns);
}

function play(isOn) {
  clearInterval(timer);
  due = 1;
  timer = isOn ? setInterval(nextPicture, 1000 / PICTURES) : 0;
  get("play").innerHTML = timer ? "&#9646;&#9646; pause" : "&#9654; play";
  get("hint").hidden = now > 0 || timer > 0;
  if (!timer) tell();
}

function playFrom() {
  if (!timer && now === film.last) go(0);
  play(!timer);
}

function seek(event) {
  const box = get("lanes").getBoundingClientRect();
  go(Math.round((event.clientX - box.left - LEFT) / (box.width - LEFT - 4) * film.last));
}

// Space plays wherever it has no other meaning. Up and down scroll the page; in the lanes they go from turn to turn.
function onKey(event) {
  const {target, key} = event, name = target.tagName;
  if (event.ctrlKey || event.altKey || event.metaKey) return;
  const step = event.shiftKey ? change : (by) => go(now + by);
  const isSeen = name !== "INPUT", isUpright = isSeen && target.id === "lanes";
  if (key === " " && !["BUTTON", "SUMMARY", "A"].includes(name)) playFrom();
  else if (isSeen && (key === "ArrowRight" || (isUpright && key === "ArrowUp"))) step(1);
  else if (isSeen && (key === "ArrowLeft" || (isUpright && key === "ArrowDown"))) step(-1);
  else if (isSeen && key === "Home") go(0);
  else if (isSeen && key === "End") go(film.last);
  else return;
  event.preventDefault();
}

// The word alone, large, with the keys and the calls of the turn: for a wall.
function isAlone() {
  return document.body.classList.contains("alone");
}

function atLink() {
  document.body.classList.toggle("alone", location.hash.startsWith("#word"));
  const turn = /t=([0-9]+)$/.exec(location.hash);
  go(turn ? Number(turn[1]) : now);
}

function redraw() {
  lanes = null;
  draw();
}

const BUTTONS = {
  first: () => go(0), lastchange: () => change(-1), lastturn: () => go(now - 1), play: playFrom, hint: playFrom,
  nextturn: () => go(now + 1), nextchange: () => change(1), end: () => go(film.last),
};
// A button that was clicked or tapped doesn't keep the space bar for itself.
for (const [id, press] of Object.entries(BUTTONS)) {
  get(id).onclick = (event) => {
    press();
    if (event.detail) get(id).blur();
  };
}
get("cell").onclick = playFrom;
get("speed").oninput = tellSpeed;

// A mouse seeks where it is pressed. A finger seeks where it taps or goes sideways; up and down it scrolls the page.
get("lanes").setAttribute("aria-valuemax", film.last);
get("lanes").style.height = ZONE_ROWS + MACHINES.length * MACHINE_ROW + 2 + "px";
get("lanes").onpointerdown = (event) => {
  get("lanes").setPointerCapture(event.pointerId);
  drag = {from: event, isOn: event.pointerType === "mouse"};
  if (drag.isOn) seek(event);
};
get("lanes").onpointermove = (event) => {
  if (!event.buttons) return;
  const by = Math.abs(event.clientX - drag.from.clientX);
  drag.isOn ||= by > 10 && by > Math.abs(event.clientY - drag.from.clientY);
  if (drag.isOn) seek(event);
};
get("lanes").onclick = seek;

get("title").textContent = decodeURIComponent(location.pathname.split("/").pop()).replace(".html", "");
get("plant").textContent = LEGEND;
get("machines").style.setProperty("--who", 4 + 8 * WHO + "px");
get("note").textContent = film.note;
document.onkeydown = onKey;
window.onhashchange = atLink;
window.onresize = redraw;
matchMedia("(prefers-color-scheme: dark)").onchange = redraw;
firstSpeed();
atLink();
</script>
</html>
"##;

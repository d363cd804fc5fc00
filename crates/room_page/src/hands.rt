// Of the page of a room: the script of keys, of the pointer, and of how the page begins.
// Made by tools/page/embed of page/room.html. Change that, and make this again.
ghost use Rattle.std.specs.Prelude.{◌≡◌};
ghost use Rattle.room_page.specs.PageHands.{hands_1, hands_2, hands_3, hands_4};

// All of keys.
pub(crate) fn hands_1() -> &'static str
    ensures { result.now ≡ hands_1 }
{
    "// ---------------------------------------------------------------------------------------------------------------- keys

const go = (places) => choice.set(choice.track, choice.place + places);
const second = () => live.counting.fps;
const rowBy = (steps) => {
  const rows = picture.rows, row = rows.indexOf(choice.track) + steps;
  if (rows[row] !== undefined) choice.set(rows[row], choice.place);
};

function toCut(step) {
  const track = picture.tracks[choice.track];
  if (!track?.count) return;
  const index = track.at(choice.place), inside = choice.place > track.start[index];
  const to = step > 0 ? track.end(index) : track.start[Math.max(0, inside ? index : index - 1)];
  choice.set(choice.track, to);
}

function toggle(set, value) {
  if (!set.delete(value)) set.add(value);
  showChoice();
}

function toggleLinking() {
  if (item() < 0) return say(NEEDS.item);
  if (choice.linking.get(own()) === item()) choice.linking.delete(own()); else choice.linking.set(own(), item());
  showChoice();
}

function flipEnd() {
  choice.end = choice.end === \"head\" ? \"tail\" : \"head\";
  at(\"END\").value = choice.end;
  compose();
}

function chooseNone() {
  chooseTool(\"choose\");
  at(\"line\").value = \"\";
  choice.linking.clear();
  choice.with.clear();
  showChoice();
}

/** Each key of the picture: its name as an event has it, what it does in words, and the doing. */
const KEYS = [
  [[\"ArrowLeft\"], \"a frame back\", () => go(-1)],
  [[\"ArrowRight\"], \"a frame on\", () => go(1)],
  [[\"Shift+ArrowLeft\"], \"a second back\", () => go(-second())],
  [[\"Shift+ArrowRight\"], \"a second on\", () => go(second())],
  [[\"PageUp\"], \"to the cut before\", () => toCut(-1)],
  [[\"PageDown\"], \"to the cut after\", () => toCut(1)],
  [[\"ArrowUp\"], \"to the track above\", () => rowBy(-1)],
  [[\"ArrowDown\"], \"to the track below\", () => rowBy(1)],
  [[\"Home\"], \"to the start\", () => choice.set(choice.track, 0)],
  [[\"End\"], \"to the track's end\", () => choice.set(choice.track, picture.tracks[choice.track].frames - 1)],
  [[\"+\", \"=\"], \"zoom in\", () => picture.zoom(1.5)],
  [[\"-\"], \"zoom out\", () => picture.zoom(1 / 1.5)],
  [[\"0\"], \"the whole cut\", () => picture.showAll()],
  [[\" \"], \"name this track in the next edits too, or no longer\", () => toggle(choice.with, choice.track)],
  [[\"*\"], \"put the item among those to be linked, or take it out\", toggleLinking],
  ...Object.entries(TOOLS).map(([name, tool]) => [[tool.key], `${name}: make the line`, () => chooseTool(name)]),
  [[\"h\"], \"head or tail\", flipEnd],
  [[\"[\", \"]\"], \"send trim, slip, roll, ripple or slide by a frame\", (key) => nudge(key === \"[\" ? -1 : 1)],
  [[\"{\", \"}\"], \"by ten frames\", (key) => nudge(key === \"{\" ? -10 : 10)],
  [[\"Enter\"], \"send the line\", sendLine],
  [[\"l\", \"/\"], \"type a line; Escape comes back to the tracks\", () => at(\"line\").focus()],
  [[\"b\"], \"take back your last edit\", takeBack],
  [[\"c\"], \"choose: no edit\", chooseNone],
  [[\",\", \"<\"], \"the cut an entry earlier, read only\", () => past.show(past.point - 1)],
  [[\".\", \">\"], \"the cut an entry later\", () => past.show(past.point + 1)],
  [[\"n\"], \"now\", () => past.now()],
  [[\"?\"], \"this table\", () => { at(\"keys\").open = !at(\"keys\").open; at(\"keys\").scrollIntoView(); }],
];
const BY_KEY = new Map(KEYS.flatMap(([keys, , does]) => keys.map((key) => [key, does])));

function pressed(event) {
  if (event.ctrlKey || event.metaKey || event.altKey) return;
  const isTyping = event.target.matches(\"input, select, button, summary, #edits\");
  if (event.key === \"Escape\") return at(\"picture\").focus();
  if (isTyping || at(\"room\").hidden) return;
  const does = BY_KEY.get(event.shiftKey && event.key.startsWith(\"Arrow\") ? `Shift+${event.key}` : event.key);
  if (!does) return;
  event.preventDefault();
  does(event.key);
}

function makeTables() {
  const arrows = { Left: \"\u{2190}\", Right: \"\u{2192}\", Up: \"\u{2191}\", Down: \"\u{2193}\" };
  const arrow = (key) => key.replace(\"+Arrow\", \" Arrow\").replace(/Arrow(\\w+)/, (_, way) => arrows[way]);
  const shown = (key) => (key === \" \" ? \"Space\" : arrow(key));
  for (const [keys, words] of KEYS) {
    const row = at(\"keys\").querySelector(\"tbody\").insertRow(), cell = row.insertCell();
    for (const key of keys) cell.append(element(\"kbd\", shown(key)), \" \");
    row.insertCell().textContent = words;
  }
  for (const [code, [words]] of Object.entries(CODES)) {
    const row = at(\"codes\").querySelector(\"tbody\").insertRow();
    row.append(element(\"th\", code, { scope: \"row\" }), element(\"td\", words));
  }
}

"
}

// All of pointer.
pub(crate) fn hands_2() -> &'static str
    ensures { result.now ≡ hands_2 }
{
    "// ------------------------------------------------------------------------------------------------------------- pointer

/** What a pointer that is held down does to the picture. */
const drag = { does: null, from: 0, item: -1 };

function pointed(event) {
  const x = event.offsetX, y = event.offsetY, place = picture.place(x), number = picture.rows[picture.rowAt(y)];
  at(\"picture\").setPointerCapture(event.pointerId);
  drag.from = x;
  drag.does = \"pan\";
  if (y < picture.ruler) {
    drag.does = \"place\";
    return choice.set(choice.track, place);
  }
  if (number === undefined) return;
  if (x < picture.left) return headPointed(number);
  choice.set(number, nearCut(number, x) ?? place);
  if (event.shiftKey) toggleLinking();
  if (TOOLS[at(\"tool\").value]?.fields.includes(\"D\") && !event.shiftKey) drag.does = \"delta\";
  if (drag.does === \"delta\") chooseTool(at(\"tool\").value);
}

/** At a track's head: it is chosen, or named in edits too where it is chosen already. */
function headPointed(number) {
  drag.does = null;
  if (choice.track === number) toggle(choice.with, number); else choice.set(number, choice.place);
}

/** The cut that is nearest to a point, where that is near. */
function nearCut(number, x) {
  const track = picture.tracks[number];
  if (!track?.count) return null;
  const index = track.at(picture.place(x)), cuts = [track.start[index], track.end(index)];
  return cuts.find((cut) => cut < track.frames && Math.abs(picture.x(cut) - x) <= NEAR) ?? null;
}

function dragged(event) {
  if (!drag.does || !event.buttons) return;
  const x = event.offsetX;
  if (drag.does === \"place\") choice.set(choice.track, picture.place(x));
  if (drag.does === \"pan\") {
    picture.scroll(drag.from - x);
    drag.from = x;
  }
  if (drag.does === \"delta\") {
    at(\"D\").value = Math.round((x - drag.from) / picture.scale);
    compose();
  }
}

function released() {
  if (drag.does === \"delta\" && Number(at(\"D\").value)) sendLine();
  drag.does = null;
}

function wheeled(event) {
  event.preventDefault();
  const unit = event.deltaMode === 1 ? 24 : 1, along = event.shiftKey ? event.deltaY : event.deltaX || event.deltaY;
  if (event.ctrlKey || event.metaKey) picture.zoom(1.0015 ** (-event.deltaY * unit), picture.place(event.offsetX));
  else if (event.altKey) picture.scrollRows(event.deltaY * unit);
  else picture.scroll(along * unit);
}

function wholeDragged(event) {
  if (!event.buttons) return;
  picture.from = Math.max(0, event.offsetX / picture.wholeScale - picture.width / picture.scale / 2);
  picture.scroll(0);
}

"
}

// Part 1 of 2 of begin.
pub(crate) fn hands_3() -> &'static str
    ensures { result.now ≡ hands_3 }
{
    "// --------------------------------------------------------------------------------------------------------------- begin

const STORE = \"cutroom\"; // of the tab alone: name, key, and how many replies were got
const STATES = {
  seated: \"connected\", connecting: \"connecting \u{2026}\", slow: \"waiting\", lost: \"not connected\", taken: \"taken over\",
  refused: \"no seat\", out: \"\",
};
const isDark = matchMedia(\"(prefers-color-scheme: dark)\");
let isFirst = true;

const seat = new Seat(told);
const room = new Room(seat, {
  drawn: (number) => { if (number === choice.track) choice.keep(); picture.ask(); },
  flashed: (number, range, station) => picture.flash(number, range, `station ${station}`),
  listed: () => { past.grown(); list.show(); },
});
const live = {
  hasNumbers: true,
  get tracks() { return room.tracks.map((held) => held.track); },
  get kinds() { return room.kinds; },
  get counting() { return room.counting; },
  nameOf: (kind, thing) => room.nameOf(kind, thing),
};
const picture = new Picture(at(\"picture\"), at(\"whole\"));

/** What the seat tells: its state, at once where the connection is lost. */
function told(state, words) {
  at(\"state\").textContent = STATES[state];
  at(\"state\").dataset.state = state;
  at(\"who\").textContent = seat.station < 0 ? \"\" : `${seat.name}, station ${seat.station}`;
  at(\"away\").textContent = words;
  at(\"away\").hidden = !words || state === \"seated\";
  if (isFirst) at(\"door-told\").textContent = words || STATES[state];
  if (state === \"seated\") begun();
  if (state === \"refused\" || state === \"taken\" || state === \"out\") signedOut(words, state === \"refused\");
}

async function begun() {
  at(\"door\").hidden = true;
  at(\"room\").hidden = false;
  if (!isFirst) return room.again();
  isFirst = false;
  tellUser(\"\");
  await room.open(() => {
    picture.resize();
    picture.showAll();
    choice.set(0, 0);
    at(\"picture\").focus();
  });
  choice.set(choice.track, choice.place);
}

function signedOut(words, isForgotten) {
  room.begin();
  isFirst = true;
  if (isForgotten || !words) sessionStorage.removeItem(STORE);
  at(\"room\").hidden = true;
  at(\"door\").hidden = false;
  at(\"door-told\").textContent = words;
}

function sitDown(event) {
  event.preventDefault();
  const [name, key] = [at(\"name\").value, at(\"key\").value];
  at(\"key\").value = \"\";
  at(\"door-told\").textContent = \"\";
  sessionStorage.setItem(STORE, JSON.stringify({ name, key, got: 0 }));
  sit(name, key, 0);
}

/** Sits down again after the page was loaded anew in its tab. */
function sitAgain() {
  const kept = JSON.parse(sessionStorage.getItem(STORE) ?? \"null\");
  if (kept) sit(kept.name, kept.key, kept.got);
}

function sit(name, key, got) {
  room.times = { signIn: performance.now() };
  seat.sit(name, key, got);
}

"
}

// Part 2 of 2 of begin.
pub(crate) fn hands_4() -> &'static str
    ensures { result.now ≡ hands_4 }
{
    "function keepGot() {
  const kept = JSON.parse(sessionStorage.getItem(STORE) ?? \"null\");
  if (kept && seat.next > 0) sessionStorage.setItem(STORE, JSON.stringify({ ...kept, got: seat.next - 1 }));
}

function setTheme(theme) {
  document.documentElement.dataset.theme = theme;
  at(\"theme\").textContent = theme === \"dark\" ? \"Light\" : \"Dark\";
  picture.theme();
}

function leave() {
  if (confirm(\"End this station? Its seat does not come back before the room starts again.\")) seat.leave();
}

function placeTyped() {
  const place = live.counting.place(at(\"place-of\").value.trim());
  choice.set(choice.track, place < 0 ? choice.place : place);
}

function listen() {
  const on = (id, kind, does, options) => at(id).addEventListener(kind, does, options);
  on(\"door\", \"submit\", sitDown);
  on(\"send\", \"submit\", (event) => { event.preventDefault(); sendLine(); });
  on(\"line\", \"input\", () => { line.isTyped = Boolean(at(\"line\").value); });
  on(\"END\", \"input\", () => { choice.end = at(\"END\").value; });
  on(\"back\", \"click\", takeBack);
  on(\"out\", \"click\", () => seat.stop());
  on(\"leave\", \"click\", leave);
  on(\"theme\", \"click\", () => setTheme(document.documentElement.dataset.theme === \"dark\" ? \"light\" : \"dark\"));
  on(\"nearer\", \"click\", () => picture.zoom(1.5));
  on(\"farther\", \"click\", () => picture.zoom(1 / 1.5));
  on(\"all\", \"click\", () => picture.showAll());
  on(\"place-of\", \"change\", placeTyped);
  on(\"slider\", \"input\", () => past.show(Number(at(\"slider\").value)));
  on(\"at\", \"change\", () => past.show(Number(at(\"at\").value)));
  on(\"now\", \"click\", () => past.now());
  on(\"save\", \"click\", saveDocument);
  on(\"save-journal\", \"click\", saveJournal);
  on(\"edits\", \"scroll\", () => list.show());
  on(\"edits\", \"click\", (event) => list.clicked(event));
  on(\"edits\", \"keydown\", (event) => list.key(event));
  on(\"picture\", \"pointerdown\", pointed);
  on(\"picture\", \"pointermove\", dragged);
  on(\"picture\", \"pointerup\", released);
  on(\"picture\", \"pointercancel\", () => { drag.does = null; });
  on(\"picture\", \"wheel\", wheeled, { passive: false });
  for (const kind of [\"pointerdown\", \"pointermove\"]) on(\"whole\", kind, wholeDragged);
  document.addEventListener(\"keydown\", pressed);
  document.addEventListener(\"visibilitychange\", () => { if (!document.hidden) room.hurry(); });
  addEventListener(\"offline\", () => seat.lose());
  addEventListener(\"online\", () => { if (seat.state === \"lost\") seat.open(); });
  addEventListener(\"pagehide\", keepGot);
  isDark.addEventListener(\"change\", () => setTheme(isDark.matches ? \"dark\" : \"light\"));
}

makeTables();
makeFields();
listen();
setTheme(isDark.matches ? \"dark\" : \"light\");

/** For trials and the console: what is drawn, as the room spells it, and how long things took. */
window.cutroom = {
  words: () => picture.tracks.map((track) => track.words()),
  seat, room, picture, past, choice, send,
};
sitAgain();
"
}

// Of the page of a room: the script of what is chosen, and of edits.
// Made by tools/page/embed of page/room.html. Change that, and make this again.
ghost use Rattle.std.specs.Prelude.{◌≡◌};
ghost use Rattle.room_page.specs.PageEdits.{edits_1, edits_2, edits_3, edits_4};

// All of what is on the page.
pub(crate) fn edits_1() -> &'static str
    ensures { result.now ≡ edits_1 }
{
    "// ------------------------------------------------------------------------------------------------- what is on the page

const at = (id) => document.getElementById(id);

/** A new element with a class and words, and attributes. */
function element(kind, words = \"\", attributes = {}) {
  const made = document.createElement(kind);
  made.textContent = words;
  for (const [name, value] of Object.entries(attributes)) made.setAttribute(name, value);
  return made;
}

function tellUser(words) {
  at(\"told\").textContent = words;
  at(\"told\").hidden = !words;
}

"
}

// All of choice.
pub(crate) fn edits_2() -> &'static str
    ensures { result.now ≡ edits_2 }
{
    "// -------------------------------------------------------------------------------------------------------------- choice

/** What is chosen: a track and a place, by them an item or a gap and the cut nearest to the place; tracks that an edit
 * is to name too; items that are to be linked, one a track. */
const choice = {
  track: 0, place: 0, item: -1, end: \"tail\", with: new Set(), linking: new Map(),

  index() {
    const track = picture.tracks[this.track];
    return track?.count && this.place < track.frames ? track.at(this.place) : -1;
  },

  /** The nearest place at which two items or gaps of the track meet, or null. */
  cut() {
    const track = picture.tracks[this.track], index = this.index();
    if (!track || track.count < 2) return null;
    if (index < 0) return track.start[track.count - 1];
    const [from, to] = [track.start[index], track.end(index)];
    if (to === track.frames || (from > 0 && this.place - from < to - this.place)) return from;
    return to;
  },

  set(number, place) {
    this.track = Math.min(Math.max(0, number), Math.max(0, picture.tracks.length - 1));
    this.place = Math.min(Math.max(0, place), 2_592_000);
    const track = picture.tracks[this.track], index = this.index();
    this.item = index < 0 ? -1 : track.item[index];
    if (index >= 0) this.end = this.place - track.start[index] < track.end(index) - this.place ? \"head\" : \"tail\";
    at(\"place-of\").value = live.counting.at(this.place);
    picture.reach(this.place, this.track);
    showChoice();
  },

  /** Keeps the item where another edit has moved it. */
  keep() {
    const track = picture.tracks[this.track], index = track && !past.cut ? track.of(this.item) : -1;
    if (index >= 0 && (this.place < track.start[index] || this.place >= track.end(index))) {
      this.place = Math.min(Math.max(this.place, track.start[index]), track.end(index) - 1);
      at(\"place-of\").value = live.counting.at(this.place);
    } else if (index < 0) this.item = this.index() < 0 ? -1 : track.item[this.index()];
    showChoice();
  },

  /** The tracks that an edit names: the own one, those that were chosen, and those of the item's link. */
  tracks() {
    const own = picture.tracks[this.track], index = this.index(), names = new Set([this.track, ...this.with]);
    const link = index < 0 ? -1 : own.link[index], hasIt = (number) => picture.tracks[number]?.link.includes(link);
    if (link >= 0) for (const number of picture.tracks.keys()) if (hasIt(number)) names.add(number);
    return [...names].sort((one, two) => one - two).join(\",\");
  },
};

function showChoice() {
  const track = picture.tracks[choice.track], index = choice.index(), cut = choice.cut();
  const parts = [`Track ${choice.track}`];
  if (index < 0) parts.push(\"past its end\");
  else if (track.kind[index] === DARK) parts.push(`a gap of ${track.length[index]} frames`);
  else {
    const number = picture.shown.hasNumbers ? `item ${track.item[index]}, ` : \"\";
    const name = picture.shown.nameOf(track.kind[index], track.thing[index]);
    parts.push(`${number}${name} from source ${track.source[index]}, ${track.length[index]} frames`);
    if (track.link[index] >= 0) parts.push(`link ${linkWord(track.link[index])}`);
  }
  if (cut !== null) parts.push(`cut ${cut} (${live.counting.at(cut)})`);
  at(\"chosen\").value = parts.join(\"; \");
  at(\"with\").textContent = choice.with.size ? `with track ${[...choice.with].sort((a, b) => a - b).join(\", \")}` : \"\";
  picture.ask();
  compose();
}

"
}

// Part 1 of 2 of edits.
pub(crate) fn edits_3() -> &'static str
    ensures { result.now ≡ edits_3 }
{
    "// --------------------------------------------------------------------------------------------------------------- edits

const own = () => choice.track;
const item = () => choice.item;
const moved = () => at(\"D\").value || \"0\";
const end = () => at(\"END\").value;
const count = (id) => at(id).value || \"0\";
const shows = () => [at(\"WHAT\").value, count(\"FROM\")];
const filled = () => (at(\"LEN\").value ? [\"source\", at(\"LEN\").value] : [\"sequence\"]); // without LEN the whole gap
const NEW = [\"WHAT\", \"FROM\", \"LEN\", \"keep\"];

const moving = (key, fields, words) => ({ key, needs: \"item\", fields, words: () => [...words(), moved()] });
const showing = (key, words) => ({ key, needs: \"place\", fields: NEW, words });

/** Each edit: its key, what has to be chosen, the fields that it has, and its words by both. */
const TOOLS = {
  slice: { key: \"s\", needs: \"place\", fields: [\"keep\"], words: () => [own(), choice.place] },
  trim: moving(\"t\", [\"END\", \"D\"], () => [own(), item(), end()]),
  slip: moving(\"y\", [\"D\"], () => [choice.tracks(), own(), item()]),
  roll: { key: \"r\", needs: \"cut\", fields: [\"D\"], words: () => [own(), choice.cut(), moved()] },
  ripple: moving(\"p\", [\"END\", \"D\"], () => [choice.tracks(), own(), item(), end()]),
  slide: moving(\"d\", [\"D\"], () => [choice.tracks(), own(), item()]),
  dissolve: { key: \"x\", needs: \"cut\", fields: [\"A\", \"B\"], words: () => [own(), choice.cut(), count(\"A\"), count(\"B\")] },
  undissolve: { key: \"X\", needs: \"cut\", fields: [], words: () => [own(), choice.cut()] },
  link: { key: \"k\", needs: \"item\", fields: [], words: linkWords },
  unlink: { key: \"K\", needs: \"item\", fields: [], words: () => [own(), item()] },
  remove: { key: \"Delete\", needs: \"item\", fields: [\"keep\"], words: () => [own(), item()] },
  extract: { key: \"e\", needs: \"item\", fields: [\"keep\"], words: () => [choice.tracks(), own(), item()] },
  overwrite: showing(\"o\", () => [own(), choice.place, ...shows(), count(\"LEN\")]),
  insert: showing(\"i\", () => [choice.tracks(), own(), choice.place, ...shows(), count(\"LEN\")]),
  fill: showing(\"f\", () => [own(), choice.place, ...shows(), ...filled()]),
};
const NEEDS = { item: \"Choose an item first.\", cut: \"This track has no cut.\" };
const EDITS = new Set([...Object.keys(TOOLS), \"back\"]);
const FIELDS = {
  END: [\"End\", \"select\"], D: [\"Frames\", \"number\"], A: [\"Frames before the cut\", \"number\"], B: [\"after it\", \"number\"],
  WHAT: [\"Shows\", \"text\"], FROM: [\"from source frame\", \"number\"], LEN: [\"frames\", \"number\"],
  keep: [\"keep dissolves beside it\", \"checkbox\"],
};

function linkWords() {
  const items = new Map([...choice.linking, [own(), item()]]), tracks = [...items.keys()].sort((one, two) => one - two);
  return [tracks.join(\",\"), tracks.map((number) => items.get(number)).join(\",\")];
}

"
}

// Part 2 of 2 of edits.
pub(crate) fn edits_4() -> &'static str
    ensures { result.now ≡ edits_4 }
{
    "function makeFields() {
  at(\"tool\").append(...[\"choose\", ...Object.keys(TOOLS)].map((name) => element(\"option\", name)));
  for (const [id, [words, kind]] of Object.entries(FIELDS)) {
    const isSelect = kind === \"select\", attributes = isSelect ? { id } : { id, type: kind, autocomplete: \"off\" };
    const field = element(isSelect ? kind : \"input\", \"\", attributes);
    if (isSelect) field.append(element(\"option\", \"head\"), element(\"option\", \"tail\"));
    if (kind === \"number\") field.value = id === \"A\" || id === \"B\" ? 6 : id === \"LEN\" ? \"\" : 0;
    if (id === \"WHAT\") field.setAttribute(\"list\", \"things\");
    const label = element(\"label\", \"\", { \"data-field\": id });
    label.append(...(kind === \"checkbox\" ? [field, words] : [words, field]));
    field.addEventListener(\"input\", compose);
    at(\"fields\").append(label);
  }
  at(\"fields\").append(element(\"datalist\", \"\", { id: \"things\" }));
  at(\"tool\").addEventListener(\"input\", () => chooseTool(at(\"tool\").value));
  chooseTool(\"choose\");
}

function chooseTool(name) {
  at(\"tool\").value = name;
  const fields = TOOLS[name]?.fields ?? [];
  for (const label of at(\"fields\").querySelectorAll(\"label\")) label.hidden = !fields.includes(label.dataset.field);
  if (fields.includes(\"END\")) at(\"END\").value = choice.end;
  if (fields.includes(\"WHAT\")) offerThings();
  line.isTyped = false;
  compose();
}

function offerThings() {
  const names = [...room.names].sort(([one], [two]) => one - two);
  const words = names.map(([number, name]) => element(\"option\", name, { value: `@${number}` }));
  at(\"things\").replaceChildren(...words);
  if (!at(\"WHAT\").value && words.length) at(\"WHAT\").value = words[0].value;
}

/** The line that is about to be sent: made of the choice, or typed. */
const line = { isTyped: false };

function compose() {
  const tool = TOOLS[at(\"tool\").value];
  if (line.isTyped || !tool) return;
  const lacks = past.cut || (tool.needs === \"item\" && item() < 0) || (tool.needs === \"cut\" && choice.cut() === null);
  const keep = tool.fields.includes(\"keep\") && at(\"keep\").checked ? [\"keep\"] : [];
  at(\"line\").value = lacks ? \"\" : [at(\"tool\").value, ...tool.words(), ...keep].join(\" \");
  at(\"line\").placeholder = past.cut ? \"The past is read only.\" : lacks ? NEEDS[tool.needs] : \"\";
}

/** Sends a line, and shows its reply. */
async function send(text) {
  if (!text.trim()) return;
  if (past.cut) return say(\"The past is read only: go back to now first.\");
  if (!seat.isSeated) return say(\"Not connected: nothing was sent.\");
  line.isTyped = false;
  const row = element(\"li\"), reply = element(\"span\", \" \u{2026}\", { class: \"quiet\" });
  row.append(element(\"code\", text), reply);
  at(\"talk\").prepend(row);
  while (at(\"talk\").childElementCount > 200) at(\"talk\").lastElementChild.remove();
  const answer = await seat.line(text, EDITS.has(text.trim().split(/[ \\t]+/)[0]));
  const { isDone, words } = explained(answer);
  reply.textContent = ` ${answer.length > 300 ? `${answer.slice(0, 300)}\u{2026}` : answer}${words ? ` \u{2014} ${words}` : \"\"}`;
  reply.className = isDone ? \"good\" : \"bad\";
  room.hurry();
  return answer;
}

const sendLine = () => send(at(\"line\").value);

/** A word to who listens, and in the list of lines. */
function say(words) {
  at(\"talk\").prepend(element(\"li\", words, { class: \"bad\" }));
}

function takeBack() {
  const { tracks, why } = room.backTracks();
  if (tracks) send(`back ${tracks.join(\",\")}`); else say(why);
}

/** Changes the delta of the line by so many frames, and sends it. */
function nudge(frames) {
  if (!TOOLS[at(\"tool\").value]?.fields.includes(\"D\")) return say(\"Choose trim, slip, roll, ripple or slide first.\");
  at(\"D\").value = frames;
  line.isTyped = false;
  compose();
  sendLine();
}

"
}

// Of the page of a room: the script of what a cut is, in replies and in documents, and of timecode.
// Made by tools/page/embed of page/room.html. Change that, and make this again.
ghost use Rattle.std.specs.Prelude.{◌≡◌};
ghost use Rattle.room_page.specs.PageCut.{cut_1, cut_2, cut_3, cut_4};

// Part 1 of 2 of what a track consists of.
pub(crate) fn cut_1() -> &'static str
    ensures { result.now ≡ cut_1 }
{
    "// -------------------------------------------------------------------------------------------- what a track consists of

const DARK = 0, MEDIA = 1, NEST = 2; // what an item or gap shows
const LINKS = 2 ** 32; // a link H.K is the number H * LINKS + K
const COLUMNS = {
  start: Int32Array, length: Int32Array, kind: Uint8Array, item: Float64Array, thing: Float64Array, source: Int32Array,
  before: Int32Array, after: Int32Array, link: Float64Array,
};

/** Columns with room for so many items and gaps, kept and made longer where that is needed. */
const scratch = { size: 0 };
function roomFor(count) {
  if (count <= scratch.size) return scratch;
  scratch.size = Math.max(1024, count * 2);
  for (const [name, kind] of Object.entries(COLUMNS)) {
    const longer = new kind(scratch.size);
    if (scratch[name]) longer.set(scratch[name]);
    scratch[name] = longer;
  }
  return scratch;
}

/** The numbers below a count that are so. */
function indices(count, isSo) {
  const found = [];
  for (let index = 0; index < count; index += 1) if (isSo(index)) found.push(index);
  return found;
}

/** The place in a list of rising numbers of the first that is not below one. */
function firstFrom(numbers, least) {
  let low = 0, high = numbers.length;
  while (low < high) {
    const middle = (low + high) >> 1;
    if (numbers[middle] < least) low = middle + 1; else high = middle;
  }
  return low;
}

/** The items and gaps of one track, in order, a column for each thing that is known of them. A gap has no item (-1).
 * Where a dissolve is at the head of one, `before` and `after` are its frames on both sides of the cut, else 0. */
class Track {
  constructor(columns, count) {
    for (const name of Object.keys(COLUMNS)) this[name] = columns[name].slice(0, count);
    this.count = count;
    this.marks = indices(count, (index) => this.before[index] + this.after[index] > 0);
    this.links = indices(count, (index) => this.link[index] >= 0);
    this.frames = count ? this.start[count - 1] + this.length[count - 1] : 0;
  }

  /** The item or gap that holds a place; the last one for a place past the end. */
  at(place) {
    let low = 0, high = this.count;
    while (high - low > 1) {
      const middle = (low + high) >> 1;
      if (this.start[middle] <= place) low = middle; else high = middle;
    }
    return low;
  }

  end(index) { return this.start[index] + this.length[index]; }

  /** Where the item of a number is, or -1. */
  of(item) { return item < 0 ? -1 : this.item.indexOf(item); }

  /** Whether it is the same in all that is drawn. */
  is(other) {
    const isSame = (name) => this[name].every((value, index) => value === other[name][index]);
    return this.count === other.count && Object.keys(COLUMNS).every(isSame);
  }

  /** One item or gap as the room spells it. */
  word(index) {
    const mark = this.before[index] + this.after[index] ? `mark ${this.before[index]} ${this.after[index]} ` : \"\";
    if (this.kind[index] === DARK) return `${mark}dark ${this.length[index]}`;
    const link = this.link[index] < 0 ? \"\" : ` link ${linkWord(this.link[index])}`;
    const shows = (this.kind[index] === MEDIA ? \"@\" : \"#\") + this.thing[index];
    return `${mark}${this.item[index]} ${shows} ${this.source[index]} ${this.length[index]}${link}`;
  }

"
}

// Part 2 of 2 of what a track consists of.
pub(crate) fn cut_2() -> &'static str
    ensures { result.now ≡ cut_2 }
{
    "  /** The whole track as the room spells it. */
  words() { return Array.from({ length: this.count }, (_, index) => this.word(index)).join(\" \"); }
}

const linkWord = (link) => `${Math.floor(link / LINKS)}.${link % LINKS}`;

/** The words of a reply, read one after another. */
class Words {
  constructor(text, at) { Object.assign(this, { text, at }); }

  get isOver() { return this.at >= this.text.length; }

  /** The next number, with the blank after it, or the dot within a link. */
  number() {
    const { text } = this;
    let value = 0, at = this.at;
    for (let digit; (digit = text.charCodeAt(at) - 48) >= 0 && digit <= 9; at += 1) value = value * 10 + digit;
    this.at = at + 1;
    return value;
  }

  /** Whether the next word begins with a letter; then the word and its blank, so many letters, are passed over. */
  passes(letter, count) {
    const isNext = this.text.charCodeAt(this.at) === letter.charCodeAt(0);
    if (isNext) this.at += count;
    return isNext;
  }
}

/** The track that a reply to `items` tells of, whose items begin at a place of its text. */
function trackOf(text, from) {
  const words = new Words(text, from);
  let count = 0;
  for (let start = 0; !words.isOver; count += 1) start += putPiece(words, roomFor(count + 1), count, start);
  return new Track(roomFor(1), count);
}

/** Puts the next item or gap into the columns; answers its length. */
function putPiece(words, columns, at, start) {
  const hasMark = words.passes(\"m\", 5); // mark A B
  columns.start[at] = start;
  columns.before[at] = hasMark ? words.number() : 0;
  columns.after[at] = hasMark ? words.number() : 0;
  const isGap = words.passes(\"d\", 5); // dark LEN
  columns.item[at] = isGap ? -1 : words.number();
  columns.kind[at] = isGap ? DARK : words.passes(\"@\", 1) ? MEDIA : words.passes(\"#\", 1) && NEST;
  columns.thing[at] = isGap ? 0 : words.number();
  columns.source[at] = isGap ? 0 : words.number();
  const length = columns.length[at] = words.number();
  columns.link[at] = words.passes(\"l\", 5) ? words.number() * LINKS + words.number() : -1; // link H.K
  return length;
}

/** The record frames [from, to) of a track in which it differs from what it was. */
function changed(was, now) {
  const same = (i, j) => was.length[i] === now.length[j] && was.item[i] === now.item[j] && was.kind[i] === now.kind[j]
    && was.thing[i] === now.thing[j] && was.source[i] === now.source[j] && was.before[i] === now.before[j]
    && was.after[i] === now.after[j] && was.link[i] === now.link[j];
  const least = Math.min(was.count, now.count);
  let front = 0, back = 0;
  while (front < least && same(front, front)) front += 1;
  while (back < least - front && same(was.count - 1 - back, now.count - 1 - back)) back += 1;
  const from = front < now.count ? now.start[front] : now.frames;
  return [from, Math.max(from, now.count - back > 0 ? now.end(now.count - 1 - back) : 0)];
}

"
}

// All of a document, as `otio N` has it.
pub(crate) fn cut_3() -> &'static str
    ensures { result.now ≡ cut_3 }
{
    "// -------------------------------------------------------------------------------------- a document, as `otio N` has it

/** The cut that a document of the room has: the kind of each track, its items, and the names of what they show. */
function cutOf(document) {
  const names = [], numbers = new Map();
  const numberOf = (name) => {
    if (!numbers.has(name)) numbers.set(name, names.push(name) - 1);
    return numbers.get(name);
  };
  const rows = document.tracks.children;
  return { kinds: rows.map((row) => row.kind), tracks: rows.map((row) => rowOf(row.children, numberOf)), names };
}

function rowOf(children, numberOf) {
  let count = 0, start = 0, item = 0, before = 0, after = 0;
  for (const child of children) {
    if (child.OTIO_SCHEMA.startsWith(\"Transition.\")) {
      [before, after] = [child.in_offset.value, child.out_offset.value];
      continue;
    }
    const columns = roomFor(count + 1), schema = child.OTIO_SCHEMA;
    const isGap = schema.startsWith(\"Gap.\"), isClip = schema.startsWith(\"Clip.\");
    columns.start[count] = start;
    columns.before[count] = before;
    columns.after[count] = after;
    columns.link[count] = -1;
    columns.kind[count] = isGap ? DARK : isClip ? MEDIA : NEST;
    columns.item[count] = isGap ? -1 : item++;
    columns.thing[count] = isGap ? 0 : numberOf(isClip ? child.name : \"a nest\");
    columns.source[count] = isGap ? 0 : child.source_range.start_time.value;
    start += columns.length[count] = child.source_range.duration.value;
    before = after = 0;
    count += 1;
  }
  return new Track(roomFor(1), count);
}

"
}

// All of timecode.
pub(crate) fn cut_4() -> &'static str
    ensures { result.now ≡ cut_4 }
{
    "// ------------------------------------------------------------------------------------------------------------ timecode

/** How a room counts its frames: how many a second, whether drop-frame, and the frame of the day at which it starts. */
class Counting {
  constructor(fps, isDrop, start, isSure = false) { Object.assign(this, { fps, isDrop, start, isSure }); }

  day() { return this.fps * 86400 - (this.isDrop ? 2 * (1440 - 144) : 0); }

  /** The label of a frame of the day. */
  label(frame) {
    let number = frame % this.day();
    if (this.isDrop) {
      const tens = Math.floor(number / 17982), rest = number % 17982;
      number += 18 * tens + (rest < 2 ? 0 : 2 * Math.floor((rest - 2) / 1798));
    }
    const two = (value) => String(value).padStart(2, \"0\"), seconds = Math.floor(number / this.fps);
    const parts = [Math.floor(seconds / 3600), Math.floor(seconds / 60) % 60, seconds % 60].map(two).join(\":\");
    return `${parts}${this.isDrop ? \";\" : \":\"}${two(number % this.fps)}`;
  }

  /** A place's label, or its number until the counting is known. */
  at(place) { return this.isSure ? this.label(this.start + place) : String(place); }

  /** The place that a text names, a number or a label, or -1. */
  place(text) {
    if (/^\\d+$/.test(text)) return Number(text);
    const found = /^(\\d\\d):(\\d\\d):(\\d\\d)[:;](\\d\\d)$/.exec(text);
    if (!found) return -1;
    const [hours, minutes, seconds, frames] = found.slice(1).map(Number), all = hours * 60 + minutes;
    const number = (all * 60 + seconds) * this.fps + frames - (this.isDrop ? 2 * (all - Math.floor(all / 10)) : 0);
    return this.label(number).replace(\";\", \":\") === text.replace(\";\", \":\") ? number - this.start : -1;
  }
}

/** The counting of the room. No line asks for it, but a label without a place is `bad B3`: so labels are asked for, up
 * to 32 at once, until the first that has a place is found. */
async function countingOf(seat) {
  const has = async (labels) => {
    const replies = await Promise.all(labels.map((label) => seat.question(`view 0 ${label} ${label}`)));
    return replies.map((reply) => reply !== \"bad B3\");
  };
  const [has24, has29, hasDropped] = await has([\"23:59:59:24\", \"23:59:59:29\", \"23:59:00:00\"]);
  const counting = new Counting(has29 ? 30 : has24 ? 25 : 24, has29 && !hasDropped, 0);
  let low = 0, high = counting.day() - 1; // the start is one of these frames of the day
  while (low < high) {
    const step = Math.max(1, Math.ceil((high - low) / 32));
    const frames = [];
    for (let frame = low; frame < high && frames.length < 32; frame += step) frames.push(frame);
    const found = (await has(frames.map((frame) => counting.label(frame)))).indexOf(true);
    if (found === 0) high = low;
    else if (found > 0) [low, high] = [frames[found - 1] + 1, frames[found]];
    else low = frames[frames.length - 1] + 1;
  }
  return new Counting(counting.fps, counting.isDrop, low, true);
}

"
}

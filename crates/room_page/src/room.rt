// Of the page of a room: the script of the room as the page follows it, and of refusals in words.
// Made by tools/page/embed of page/room.html. Change that, and make this again.
ghost use Rattle.std.specs.Prelude.{◌≡◌};
ghost use Rattle.room_page.specs.PageRoom.{room_1, room_2, room_3, room_4, room_5};

// Part 1 of 4 of the room, followed.
pub(crate) fn room_1() -> &'static str
    ensures { result.now ≡ room_1 }
{
    "// -------------------------------------------------------------------------------------------------- the room, followed

const POLL = 125, HIDDEN_POLL = 2000; // milliseconds between two questions for news
const AT_ONCE = 1000; // questions for news
const CHECK = 5000; // milliseconds between two looks whether a track is drawn as the room has it
const AGAIN = 20000; // milliseconds between two questions for names

/** What is known of the room: its tracks as it gave them, the entries of its journal, and what it told by the way. */
class Room {
  constructor(seat, seen) {
    Object.assign(this, { seat, seen, wakers: [], mended: 0, times: {} }); // seen: who shows it
    this.begin();
  }

  begin() {
    Object.assign(this, { tracks: [], kinds: [], entries: [], length: 0, names: new Map(), isReady: false });
    Object.assign(this, { counting: new Counting(24, false, 0), namesAt: 0, isLearning: false });
    this.round = {}; // another one for each room: what was begun for an older one ends
  }

  /** Asks for the whole room, and follows it from then on. */
  async open(isThere = () => {}) {
    this.begin();
    const round = this.round, began = performance.now();
    const asked = Array.from({ length: 32 }, (_, number) => this.seat.question(`items ${number}`));
    for (const [number, reply] of asked.entries()) {
      const text = await reply;
      if (round !== this.round) return;
      if (text.startsWith(\"items \")) this.take(number, text); else if (text === \"memory\") this.later(number);
    }
    isThere();
    this.seen.drawn(0);
    this.times.first = performance.now() - began;
    this.follow(round);
    this.check(round);
    const counting = await countingOf(this.seat);
    if (round !== this.round) return;
    this.counting = counting;
    this.seen.drawn(0);
    await this.learnNames();
    this.isReady = true;
  }

  later(number) {
    this.tracks[number] ??= { track: trackOf(\"\", 0), text: \"\", point: 0, rested: 0, stations: new Set() };
    this.refresh(number, null);
  }

  /** Keeps a reply to `items`, and says what it changes. */
  take(number, reply) {
    const space = reply.indexOf(\" \", 6), body = space < 0 ? reply.length : space + 1;
    const held = this.tracks[number] ??= { track: trackOf(\"\", 0), text: null, rested: 0, stations: new Set() };
    const was = held.track, isFirst = held.text === null, text = reply.slice(body), from = held.point;
    held.point = Number(reply.slice(6, space < 0 ? undefined : space));
    this.length = Math.max(this.length, held.point);
    if (held.text !== text) {
      held.text = text;
      held.track = trackOf(text, 0);
      if (!isFirst) this.changed(number, held, { from, to: held.point, range: changed(was, held.track) });
    }
    held.stations.clear();
  }

  /** A change of a track flashes for each station that is known to have edited it; other entries are yet to come. */
  changed(number, held, change) {
    held.change = change;
    for (const station of held.stations) this.seen.flashed(number, change.range, station);
    this.seen.drawn(number);
  }

"
}

// Part 2 of 4 of the room, followed.
pub(crate) fn room_2() -> &'static str
    ensures { result.now ≡ room_2 }
{
    "  /** Asks for a track again, but never twice at once, and rests as long as the last answer took. */
  async refresh(number, station) {
    const held = this.tracks[number], round = this.round;
    if (!held) return;
    if (station !== null && station !== this.seat.station) held.stations.add(station);
    held.isOld = true;
    if (held.isAsked) return;
    held.isAsked = true;
    while (held.isOld && round === this.round) {
      if (held.rested > performance.now()) await pause(held.rested - performance.now());
      held.isOld = false;
      const began = performance.now(), reply = await this.seat.question(`items ${number}`);
      if (round !== this.round) return;
      if (reply.startsWith(\"items \")) this.take(number, reply); else held.isOld = true;
      this.times.refresh = performance.now() - began;
      held.rested = performance.now() + Math.min(1000, this.times.refresh) + (reply === \"memory\" ? 1000 : 0);
    }
    held.isAsked = false;
    this.learnNames();
  }

  /** Asks for entry after entry, a thousand at once while there are more, as long as this room is followed. */
  async follow(round) {
    while (round === this.round) {
      const from = this.entries.length, count = Math.min(AT_ONCE, Math.max(1, this.length - from));
      const asked = Array.from({ length: count }, (_, k) => this.seat.question(`news ${from + k}`));
      for (const reply of await Promise.all(asked)) {
        if (round !== this.round) return;
        if (!this.heard(reply)) return this.other();
      }
      if (from === 0 || this.entries.length > from) this.seen.listed();
      if (this.entries.length >= this.length || this.entries.length === from) await this.wake();
    }
  }

  /** Takes a reply to `news`; answers whether it can be of the room that is known. */
  heard(reply) {
    const words = reply.split(\" \");
    if (words[0] === \"memory\") return true;
    if (words[0] !== \"news\") return words[2] !== \"V3\" || Number(words[1]) >= this.entries.length;
    this.length = Math.max(this.length, Number(words[2]));
    if (words.length < 5 || Number(words[1]) !== this.entries.length) return true;
    const entry = { station: Number(words[3]), number: Number(words[4]), call: words.slice(5) };
    this.entries.push(entry);
    const place = this.entries.length - 1;
    for (const number of tracksOf(entry.call)) this.edited(number, place, entry.station);
    return true;
  }

  /** An entry names a track: it is asked for again, unless the entry is in what is drawn already. */
  edited(number, place, station) {
    const held = this.tracks[number], change = held?.change;
    if (!held) return;
    if (held.point <= place) this.refresh(number, station);
    else if (change && change.from <= place && place < change.to && station !== this.seat.station) {
      this.seen.flashed(number, change.range, station);
    }
  }

"
}

// Part 3 of 4 of the room, followed.
pub(crate) fn room_3() -> &'static str
    ensures { result.now ≡ room_3 }
{
    "  /** A pause before the next question for news, which an edit of one's own ends. */
  wake() {
    return new Promise((done) => {
      const timer = setTimeout(done, document.hidden ? HIDDEN_POLL : POLL);
      this.wakers.push(() => { clearTimeout(timer); done(); });
    });
  }

  hurry() { for (const waker of this.wakers.splice(0)) waker(); }

  /** The room is another one than before: it has fewer entries, or another one at a place that is known. */
  other() {
    tellUser(\"The room has begun anew, with another journal. It is shown as it is now.\");
    for (const line of this.seat.unknown.splice(0)) line.answer(\"lost\");
    this.open();
  }

  /** After a break: whether it is the same room, and what became of edits whose replies were lost. */
  async again() {
    const round = this.round, last = this.entries.length - 1;
    if (last >= 0) {
      const words = (await this.seat.question(`news ${last}`)).split(\" \"), known = this.entries[last];
      if (round !== this.round) return;
      if (words[0] !== \"memory\" && words.slice(3).join(\" \") !== entryWords(known)) return this.other();
    }
    for (const number of this.tracks.keys()) this.refresh(number, null);
    const length = Number((await this.seat.question(\"point\")).split(\" \")[1]);
    while (round === this.round && this.entries.length < length) await this.wake();
    for (const line of this.seat.unknown.splice(0)) line.answer(this.fate(line));
  }

  /** What the journal says of a line whose reply was lost. */
  fate(line) {
    const isIt = (entry) => entry.station === this.seat.station && entry.number === line.number;
    const place = this.entries.findLastIndex(isIt);
    return place < 0 ? \"lost\" : `ok ${place} (its reply was lost; the journal has it)`;
  }

  /** Compares one track after another with what the room has, and mends what differs. */
  async check(round) {
    for (let turn = 0; ; turn += 1) {
      await pause(CHECK);
      if (round !== this.round) return;
      const number = turn % this.tracks.length, held = this.tracks[number];
      if (!held || held.isAsked || !this.seat.isSeated || document.hidden) continue;
      const reply = await this.seat.question(`items ${number}`), space = reply.indexOf(\" \", 6);
      if (round !== this.round || !reply.startsWith(\"items \")) continue;
      const point = Number(reply.slice(6, space < 0 ? undefined : space));
      const text = space < 0 ? \"\" : reply.slice(space + 1);
      if (point > this.entries.length || held.isAsked || held.point > point) continue;
      const edited = this.entries.slice(held.point, point).some((entry) => tracksOf(entry.call).includes(number));
      if (edited || (text === held.text && held.track.is(trackOf(text, 0)))) continue;
      this.mended += 1;
      tellUser(`Track ${number} was not drawn as the room has it at point ${point}. It is drawn anew.`);
      held.text = undefined;
      this.take(number, reply);
    }
  }

"
}

// Part 4 of 4 of the room, followed.
pub(crate) fn room_4() -> &'static str
    ensures { result.now ≡ room_4 }
{
    "  /** The names of what is shown, by the room's document at a point at which it has the tracks that are drawn. */
  async learnNames() {
    const unknown = (held) => held && !this.isNamed(held.track);
    if (this.isLearning || !this.tracks.some(unknown) || performance.now() < this.namesAt) return;
    this.isLearning = true;
    const round = this.round, point = Math.max(...this.tracks.filter(unknown).map((held) => held.point));
    const reply = await this.seat.question(`otio ${point}`);
    this.namesAt = performance.now() + AGAIN;
    this.isLearning = false;
    if (reply.endsWith(\"V4\")) this.namesAt = Infinity; // too long a document: this room tells no names
    if (round !== this.round || !reply.startsWith(\"otio \")) return;
    const cut = cutOf(JSON.parse(reply.slice(reply.indexOf(\" \", 5) + 1)));
    this.kinds = cut.kinds;
    for (const [number, held] of this.tracks.entries()) this.nameAll(held.track, cut.tracks[number], cut.names);
    this.seen.drawn(0);
  }

  isNamed(track) {
    for (let index = 0; index < track.count; index += 1) {
      if (track.kind[index] === MEDIA && !this.names.has(track.thing[index])) return false;
    }
    return true;
  }

  /** Takes the names of one track, where the document has its items: as many, of the same source frames. */
  nameAll(track, written, names) {
    if (!written || track.count !== written.count) return;
    const columns = [\"length\", \"source\", \"kind\"];
    const isSame = (index) => columns.every((column) => track[column][index] === written[column][index]);
    for (let index = 0; index < track.count; index += 1) if (!isSame(index)) return;
    for (let index = 0; index < track.count; index += 1) {
      if (track.kind[index] === MEDIA) this.names.set(track.thing[index], names[written.thing[index]]);
    }
  }

  nameOf(kind, thing) { return kind === NEST ? `#${thing} nest` : this.names.get(thing) || `@${thing}`; }

  isSound(number) { return this.kinds[number] === \"Audio\"; }

  /** The tracks of this station's last edit that can be taken back, or why there is none. */
  backTracks() {
    const last = new Map(); // of each track its last entry
    for (const entry of this.entries) for (const number of tracksOf(entry.call)) last.set(number, entry);
    for (let place = this.entries.length - 1; place >= 0; place -= 1) {
      const entry = this.entries[place], tracks = tracksOf(entry.call);
      if (entry.station !== this.seat.station || entry.call[0] === \"back\") continue;
      if (tracks.every((number) => last.get(number) === entry)) return { tracks };
    }
    return { why: \"Nothing of yours can be taken back: others have edited its tracks since, or it was taken back.\" };
  }
}

/** The tracks that an edit's line names: its second word is one, or a list. */
const tracksOf = (call) => (call[1] ?? \"\").split(\",\").filter((word) => /^\\d+$/.test(word)).map(Number);
const entryWords = (entry) => [entry.station, entry.number, ...entry.call].join(\" \");
const pause = (time) => new Promise((done) => setTimeout(done, time));

"
}

// All of refusals, in words.
pub(crate) fn room_5() -> &'static str
    ensures { result.now ≡ room_5 }
{
    "// -------------------------------------------------------------------------------------------------- refusals, in words

const CODES = {
  B1: [\"the first word is no line of the room, or a later word that has to be one of a few is another\"],
  B2: [\"it has not as many words as its first word needs, or a list of items is not as long as that of the tracks\"],
  B3: [\"a word is not spelled as its part, or is a label without a place\"],
  B4: [\"a number is past its bound\"],
  B5: [\"the line has more than 1,024 bytes\"],
  B6: [\"in a list of tracks one is not above the one before\"],
  E1: [\"a track is not in the room, or the edit's own track is not in its list of tracks\", \"track\"],
  E2: [\"the track has no such item, or nothing at that place\"],
  E3: [\"what is to be shown is not in the room, or is a nest on a track of sound\"],
  E4: [\"it has no frames\"],
  E5: [\"the source frames asked for are not all there\"],
  E6: [\"the place is not in a gap\", \"place\"],
  E7: [\"there is no cut at that place, or no dissolve\", \"place\"],
  E8: [\"the dissolve has no room\", \"side\"],
  E9: [\"the items are not at one offset, record place less source frame, so they can't be linked\", \"offset\", \"offset\"],
  E10: [\"an item has a link already\", \"track\", \"item\"],
  E11: [\"what is moved is linked to an item of a track that the edit does not name\", \"link\", \"track\"],
  E12: [\"the item would move away from what it is linked to\", \"link\", \"offset before\", \"offset after\"],
  E13: [\"a track would have more than 2,592,000 frames\", \"track\"],
  E14: [\"a track would have more than 65,536 items and gaps\", \"track\"],
  E15: [\"the journal is full: it has 100,000 entries\"],
  E16: [\"nothing is there to take back, or the track's last edit is another station's\", \"track\"],
  E17: [\"the last edit of the track named other tracks too, or fewer\", \"track\"],
  V1: [\"the room has no such track\", \"track\"],
  V2: [\"the places are not in order, or past the track's end\", \"length\"],
  V3: [\"the journal has not so many entries\"],
  V4: [\"the document has more than 32 MiB\"],
};

const OTHERS = {
  lost: \"its reply was lost, and the journal has no such edit: it was not done\",
  memory: \"the room is out of memory; nothing has changed\",
};

/** A refusal in words, and whether the line was done. */
function explained(reply) {
  if (OTHERS[reply]) return { isDone: false, words: OTHERS[reply] };
  const words = reply.slice(0, 300).split(\" \");
  if (words[0] !== \"no\" && words[0] !== \"bad\") return { isDone: true, words: \"\" };
  const at = words[0] === \"no\" ? 2 : 1, code = words[at];
  const [text, ...parts] = CODES[code] ?? [\"a code that this page does not know\"];
  const told = parts.map((part, index) => `${part} ${words[at + 1 + index]}`).join(\", \");
  return { isDone: false, words: `${code}: ${text}${told ? ` (${told})` : \"\"}` };
}

"
}

// Of the page of a room: the script of the seat, over connections that break.
// Made by tools/page/embed of page/room.html. Change that, and make this again.
ghost use Rattle.std.specs.Prelude.{◌≡◌};
ghost use Rattle.room_page.specs.PageSeat.{seat_1, seat_2};

// Part 1 of 2 of the seat.
pub(crate) fn seat_1() -> &'static str
    ensures { result.now ≡ seat_1 }
{
    "// ------------------------------------------------------------------------------------------------------------ the seat

const SLOW = 1500, DEAD = 10000; // milliseconds without a reply that is due
const LET_GO = 256; // replies

/** A station of the room over connections that may break. A line is sent once; each has one reply. After a break the
 * seat tells how many lines it has: those after them are sent again, and no other. A question whose reply is lost is
 * asked again. An edit whose reply is lost waits in `unknown`, until the journal tells whether it was done. */
class Seat {
  constructor(tell) {
    Object.assign(this, { tell, state: \"out\", station: -1, tries: 0, heard: 0 });
    Object.assign(this, { waiting: [], unknown: [], last: null, next: 0 }); // the last line's number, the next reply's
    setInterval(() => this.look(), 250);
  }

  sit(name, key, got) {
    Object.assign(this, { name, key, last: null, next: got + 1, waiting: [], unknown: [], tries: 0 });
    this.open();
  }

  open() {
    clearTimeout(this.timer);
    this.enter(\"connecting\");
    const address = new URL(\"/station\", location.href);
    address.protocol = location.protocol === \"https:\" ? \"wss:\" : \"ws:\";
    const socket = this.socket = new WebSocket(address);
    this.heard = performance.now();
    socket.onopen = () => socket.send(`sit ${this.name} ${this.key} ${this.next - 1}`);
    socket.onmessage = (event) => { if (socket === this.socket) this.hear(event.data); };
    socket.onclose = () => { if (socket === this.socket) this.lose(); };
  }

  enter(state, words = \"\") {
    if (state === this.state && !words) return;
    this.state = state;
    this.tell(state, words);
  }

  hear(text) {
    this.heard = performance.now();
    if (this.state === \"connecting\") this.seated(text); else this.replied(text);
  }

  /** The seat's first words: what it has taken, and from which reply on it answers. */
  seated(text) {
    const [word, ...numbers] = text.split(\" \");
    if (word !== \"seat\") return this.stop(\"refused\", \"No seat: name or key is not one of the crew.\");
    const [station, taken, first] = numbers.map(Number);
    if (this.last !== null && taken > this.last) {
      return this.stop(\"taken\", \"Somebody else has sat down on this seat. Sign in to take it over again.\");
    }
    const again = this.waiting.filter((line) => line.number > taken);
    const lost = this.waiting.filter((line) => line.number <= taken && line.number < first);
    this.waiting = this.waiting.filter((line) => line.number <= taken && line.number >= first);
    Object.assign(this, { station, last: taken, next: first, tries: 0 });
    this.enter(\"seated\");
    for (const line of again) this.send(line);
    for (const line of lost) if (line.isEdit) this.unknown.push(line); else this.send(line);
  }

"
}

// Part 2 of 2 of the seat.
pub(crate) fn seat_2() -> &'static str
    ensures { result.now ≡ seat_2 }
{
    "  replied(text) {
    const number = this.next++;
    if (number % LET_GO === 0) this.socket.send(`/got ${number}`);
    const line = this.waiting[0];
    if (!line || line.number !== number) return; // to a line that an earlier page has sent from this seat
    this.waiting.shift();
    if (this.state === \"slow\") this.enter(\"seated\");
    line.answer(text);
  }

  send(line) {
    line.number = ++this.last;
    line.sent = performance.now();
    this.waiting.push(line);
    this.socket.send(line.text);
  }

  get isSeated() { return this.state === \"seated\" || this.state === \"slow\"; }

  /** The reply to a question, which may be asked many times. */
  question(text) { return this.line(text, false); }

  /** The reply to a line. It is kept until there is a connection. */
  line(text, isEdit) {
    return new Promise((answer) => {
      const line = { text, isEdit, answer };
      if (this.isSeated) this.send(line); else this.waiting.push(Object.assign(line, { number: Infinity }));
    });
  }

  /** The connection is gone: another is tried, at once and then after longer and longer times. */
  lose() {
    if (this.state === \"out\") return;
    const socket = this.socket;
    this.socket = null;
    if (socket) socket.close();
    clearTimeout(this.timer);
    const pause = this.tries ? Math.min(5000, 200 * 2 ** this.tries) * (0.75 + Math.random() / 2) : 0;
    this.tries += 1;
    this.enter(\"lost\", \"The connection is lost. Nothing can be sent; it is tried again by itself.\");
    this.timer = setTimeout(() => this.open(), pause);
  }

  /** Looks whether a reply is late. One to `otio` may take long, and breaks nothing. */
  look() {
    const now = performance.now(), line = this.waiting[0];
    if (this.state === \"connecting\" && now - this.heard > DEAD / 2) return this.lose();
    if (!this.isSeated || !line) return;
    const wait = now - Math.max(this.heard, line.sent);
    if (wait > DEAD && !line.text.startsWith(\"otio\")) this.lose();
    else if (wait > SLOW) this.enter(\"slow\", `No answer for ${Math.round(wait / 1000)} s.`);
  }

  /** Ends the talk with this room; the seat stays as it is. */
  stop(state = \"out\", words = \"\") {
    clearTimeout(this.timer);
    const socket = this.socket;
    this.socket = null;
    this.enter(state, words);
    this.state = \"out\";
    if (socket) socket.close();
  }

  leave() {
    if (this.isSeated) this.socket.send(\"/leave\");
    this.stop();
  }
}

"
}

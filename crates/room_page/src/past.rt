// Of the page of a room: the script of former cuts, and of the list of edits.
// Made by tools/page/embed of page/room.html. Change that, and make this again.
ghost use Rattle.std.specs.Prelude.{◌≡◌};
ghost use Rattle.room_page.specs.PagePast.{past_1, past_2};

// All of the past.
pub(crate) fn past_1() -> &'static str
    ensures { result.now ≡ past_1 }
{
    "// ------------------------------------------------------------------------------------------------------------ the past

/** The cut at an earlier point of the journal, by the document that the room gives of it. */
const past = {
  cut: null, point: 0,

  /** Shows the cut after so many entries; the newest ones are the present. */
  show(point) {
    this.point = Math.min(Math.max(0, point), room.length);
    at(\"slider\").value = at(\"at\").value = this.point;
    clearTimeout(this.timer);
    if (this.point >= room.length) return this.now();
    at(\"past-told\").textContent = \"\u{2026}\";
    this.timer = setTimeout(() => this.fetch(this.point), 120);
  },

  async fetch(point) {
    const reply = await seat.question(`otio ${point}`);
    if (point !== this.point || point >= room.length) return;
    const { isDone, words } = explained(reply);
    if (!isDone) return void (at(\"past-told\").textContent = words);
    const cut = cutOf(JSON.parse(reply.slice(reply.indexOf(\" \", 5) + 1)));
    this.cut = { ...cut, hasNumbers: false, nameOf: (_, thing) => cut.names[thing] };
    this.changed(`The cut after ${point} entries, read only.`);
  },

  now() {
    clearTimeout(this.timer);
    this.point = room.length;
    this.cut = null;
    this.changed(\"\");
  },

  changed(words) {
    document.body.classList.toggle(\"past\", Boolean(this.cut));
    at(\"past-told\").textContent = words;
    at(\"slider\").value = at(\"at\").value = this.point;
    choice.set(choice.track, choice.place);
    picture.ask();
  },

  grown() {
    const isNow = !this.cut && this.point === Number(at(\"slider\").max);
    at(\"slider\").max = at(\"at\").max = room.length;
    if (isNow) at(\"slider\").value = at(\"at\").value = this.point = room.length;
    at(\"point\").textContent = `${room.length} ${room.length === 1 ? \"entry\" : \"entries\"}`;
  },
};

function saveText(text, name) {
  const address = URL.createObjectURL(new Blob([text], { type: \"application/octet-stream\" }));
  element(\"a\", \"\", { href: address, download: name }).click();
  setTimeout(() => URL.revokeObjectURL(address), 10000);
}

async function saveDocument() {
  const point = past.cut ? past.point : room.length, reply = await seat.question(`otio ${point}`);
  const { isDone, words } = explained(reply);
  if (isDone) saveText(reply.slice(reply.indexOf(\" \", 5) + 1), `cut-${point}.otio`); else say(words);
}

/** The entries up to the point that is shown, as the text of a journal, which `cutroom list` reads. */
function saveJournal() {
  const point = past.cut ? past.point : room.entries.length;
  const rows = [`journal ${point}`, ...room.entries.slice(0, point).map(entryWords)];
  saveText(`${rows.join(\"\\n\")}\\n`, `cut-${point}.journal`);
}

"
}

// All of the list of edits.
pub(crate) fn past_2() -> &'static str
    ensures { result.now ≡ past_2 }
{
    "// --------------------------------------------------------------------------------------------------- the list of edits

/** The entries of the journal; only the rows that are seen are there. */
const list = {
  active: -1,

  show() {
    const box = at(\"edits\"), inner = box.firstElementChild, height = 1.75 * picture.rem, count = room.entries.length;
    const isAtEnd = box.scrollTop + box.clientHeight >= inner.offsetHeight - height;
    inner.style.height = `${count * height}px`;
    if (isAtEnd && this.active < 0) box.scrollTop = count * height;
    const first = Math.max(0, Math.floor(box.scrollTop / height) - 2);
    const last = Math.min(count, first + Math.ceil(box.clientHeight / height) + 4);
    inner.replaceChildren(...Array.from({ length: Math.max(0, last - first) }, (_, k) => this.row(first + k, height)));
  },

  row(place, height) {
    const { station, call } = room.entries[place], isMine = station === seat.station;
    const words = call.map((word) => (word[0] === \"@\" && room.names.get(Number(word.slice(1)))) || word).join(\" \");
    const who = isMine ? \"you\" : `station ${station}`;
    const told = `${String(place).padStart(5)}  ${who.padEnd(10)}  ${words}`;
    const row = element(\"div\", told, { class: \"entry words\", role: \"option\", id: `entry-${place}` });
    row.classList.toggle(\"mine\", isMine);
    row.classList.toggle(\"active\", place === this.active);
    row.setAttribute(\"aria-selected\", place === this.active);
    row.style.top = `${place * height}px`;
    return row;
  },

  clicked(event) {
    const box = at(\"edits\"), y = event.clientY - box.getBoundingClientRect().top - box.clientTop + box.scrollTop;
    const place = Math.floor(y / (1.75 * picture.rem));
    if (place >= room.entries.length) return;
    this.choose(place);
    past.show(place + 1);
  },

  choose(place) {
    const box = at(\"edits\"), height = 1.75 * picture.rem;
    this.active = Math.min(Math.max(0, place), room.entries.length - 1);
    const least = (this.active + 1) * height - box.clientHeight;
    box.scrollTop = Math.min(this.active * height, Math.max(box.scrollTop, least));
    this.show();
    box.setAttribute(\"aria-activedescendant\", `entry-${this.active}`);
  },

  key(event) {
    const steps = { ArrowDown: 1, ArrowUp: -1, PageDown: 8, PageUp: -8, Home: -1e9, End: 1e9 };
    if (event.key in steps) this.choose((this.active < 0 ? room.entries.length - 1 : this.active) + steps[event.key]);
    else if (event.key === \"Enter\" && this.active >= 0) past.show(this.active + 1);
    else return;
    event.preventDefault();
  },
};

"
}

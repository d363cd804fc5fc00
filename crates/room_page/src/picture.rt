// Of the page of a room: the script of the picture of the tracks.
// Made by tools/page/embed of page/room.html. Change that, and make this again.
ghost use Rattle.std.specs.Prelude.{◌≡◌};
ghost use Rattle.room_page.specs.PagePicture.{picture_1, picture_2, picture_3, picture_4};

// Part 1 of 4 of the picture.
pub(crate) fn picture_1() -> &'static str
    ensures { result.now ≡ picture_1 }
{
    "// --------------------------------------------------------------------------------------------------------- the picture

const FLASH = 1600; // milliseconds
const THIN = 1.5; // pixels: what is thinner is drawn together with what follows
const COLOURS = [\"ground\", \"panel\", \"ink\", \"quiet\", \"rule\", \"gap\", \"accent\", \"bad\", \"flash\", \"item-ink\", \"item-light\"];
const NEAR = 6; // pixels from a cut within which a click chooses it

/** The hue of a name: the same on every page. */
function hueOf(name) {
  let sum = 2166136261;
  for (let at = 0; at < name.length; at += 1) sum = Math.imul(sum ^ name.charCodeAt(at), 16777619) >>> 0;
  sum = Math.imul(sum ^ (sum >>> 15), 2246822519);
  sum = Math.imul(sum ^ (sum >>> 13), 3266489917);
  return ((sum ^ (sum >>> 16)) >>> 0) % 360;
}

/** The timeline: it draws what is seen of the tracks, and knows which place and which track a point of it is. */
class Picture {
  constructor(canvas, whole) {
    Object.assign(this, { canvas, whole, from: 0, scale: 0, top: 0, flashes: [], isAsked: false, boxes: 0, took: 0 });
    this.pen = canvas.getContext(\"2d\", { alpha: false });
    this.wholePen = whole.getContext(\"2d\", { alpha: false });
    new ResizeObserver(() => this.resize()).observe(canvas);
    this.theme();
  }

  theme() {
    const style = getComputedStyle(document.documentElement);
    const colour = (name) => style.getPropertyValue(`--${name}`).trim();
    this.colours = Object.fromEntries(COLOURS.map((name) => [name, colour(name)]));
    this.fills = new Map();
    this.rem = parseFloat(style.fontSize);
    this.ask();
  }

  /** Makes the picture no higher than its tracks need. */
  fit() {
    const need = `${Math.ceil(this.ruler + Math.max(2, this.tracks.length) * 4.5 * this.rem) + 4}px`;
    if (this.canvas.style.maxHeight !== need) this.canvas.style.maxHeight = need;
  }

  resize() {
    this.rem = parseFloat(getComputedStyle(document.documentElement).fontSize);
    for (const canvas of [this.canvas, this.whole]) {
      canvas.width = Math.round(canvas.clientWidth * devicePixelRatio);
      canvas.height = Math.round(canvas.clientHeight * devicePixelRatio);
    }
    if (!this.scale) this.showAll(); else this.ask();
  }

  // What is shown: the room as it is, or a cut of its past.

  get shown() { return past.cut ?? live; }
  get tracks() { return this.shown.tracks; }
  get frames() { return Math.max(1, ...this.tracks.map((track) => track?.frames ?? 0)); }

  /** The tracks from top to bottom: picture, the last on top, and then sound, the first on top. */
  get rows() {
    const all = [...this.tracks.keys()], isSound = (number) => this.shown.kinds[number] === \"Audio\";
    return [...all.filter((number) => !isSound(number)).reverse(), ...all.filter(isSound)];
  }

  // Places and points.

  get left() { return 3.4 * this.rem; }
  get ruler() { return 1.7 * this.rem; }
  get width() { return this.canvas.clientWidth - this.left; }
  get rowHeight() {
    const room = (this.canvas.clientHeight - this.ruler) / Math.max(1, this.tracks.length);
    return Math.min(4.5 * this.rem, Math.max(1.9 * this.rem, room));
  }
  x(place) { return this.left + (place - this.from) * this.scale; }
  place(x) { return Math.max(0, Math.floor(this.from + (x - this.left) / this.scale)); }
  y(row) { return this.ruler + row * this.rowHeight - this.top; }
  rowAt(y) { return Math.floor((y - this.ruler + this.top) / this.rowHeight); }

  showAll() {
    if (this.width <= 0) return;
    this.scale = this.width / (this.frames * 1.02 + 1);
    this.from = 0;
    this.ask();
  }

  /** Zooms by a factor, about a place that keeps its point. */
  zoom(factor, place = choice.place) {
    const x = Math.min(this.left + this.width, Math.max(this.left, this.x(place)));
    const least = this.width / (this.frames * 1.5 + 24);
    this.scale = Math.min(this.rem * 3, Math.max(least, this.scale * factor));
    this.from = place - (x - this.left) / this.scale;
    this.scroll(0);
  }

  scroll(pixels) {
    const most = Math.max(0, this.frames - this.width / this.scale / 2);
    this.from = Math.min(most, Math.max(0, this.from + pixels / this.scale));
    this.ask();
  }

  scrollRows(pixels) {
    const most = Math.max(0, this.tracks.length * this.rowHeight - (this.canvas.clientHeight - this.ruler));
    this.top = Math.min(most, Math.max(0, this.top + pixels));
    this.ask();
  }

"
}

// Part 2 of 4 of the picture.
pub(crate) fn picture_2() -> &'static str
    ensures { result.now ≡ picture_2 }
{
    "  /** Brings a place and a track into view. */
  reach(place, number) {
    const x = this.x(place), row = this.rows.indexOf(number);
    if (x < this.left || x > this.left + this.width) this.from = Math.max(0, place - this.width / this.scale / 3);
    if (this.y(row) < this.ruler) this.top -= this.ruler - this.y(row);
    this.scrollRows(Math.max(0, this.y(row + 1) - this.canvas.clientHeight));
  }

  // Drawing.

  /** Draws once before the next frame of the screen, however often it is asked for. */
  ask() {
    if (this.isAsked) return;
    this.isAsked = true;
    requestAnimationFrame(() => {
      this.isAsked = false;
      const began = performance.now();
      this.draw();
      this.took = performance.now() - began;
      this.drawnAt = performance.timeOrigin + performance.now();
      if (this.tracks.length) room.times.picture ??= performance.now() - room.times.signIn;
    });
  }

  draw() {
    const { pen, colours } = this;
    if (!this.canvas.width || !this.scale) return;
    this.fit();
    this.boxes = 0;
    this.start(pen, this.canvas);
    pen.save();
    pen.beginPath();
    pen.rect(0, this.ruler, this.canvas.clientWidth, this.canvas.clientHeight);
    pen.clip();
    const rows = this.rows;
    for (const [row, number] of rows.entries()) if (this.isSeen(row)) this.drawTrack(number, this.y(row));
    this.drawLinks(rows);
    this.drawFlashes(rows);
    this.drawChoice(rows);
    for (const [row, number] of rows.entries()) if (this.isSeen(row)) this.drawHead(number, this.y(row));
    pen.restore();
    this.drawRuler();
    pen.fillStyle = colours.accent;
    const x = this.x(choice.place);
    if (x >= this.left - 1) pen.fillRect(x - 1, this.ruler, 2, this.canvas.clientHeight);
    this.drawWhole(rows);
  }

  start(pen, canvas) {
    pen.setTransform(devicePixelRatio, 0, 0, devicePixelRatio, 0, 0);
    pen.fillStyle = this.colours.ground;
    pen.fillRect(0, 0, canvas.clientWidth, canvas.clientHeight);
    pen.textBaseline = \"middle\";
    pen.lineWidth = 1;
  }

  isSeen(row) { return this.y(row + 1) > this.ruler && this.y(row) < this.canvas.clientHeight; }

  fill(name) {
    let fill = this.fills.get(name);
    if (!fill) this.fills.set(name, fill = `hsl(${hueOf(name)} 58% ${this.colours[\"item-light\"]})`);
    return fill;
  }

  /** The items and gaps of a track that are seen. What is thinner than a pixel or so is drawn with what follows it. */
  drawTrack(number, y) {
    const track = this.tracks[number], end = this.from + this.width / this.scale;
    if (!track?.count) return;
    const height = this.rowHeight - 2, first = track.at(this.from);
    for (let index = first; index < track.count && track.start[index] < end;) {
      const x = this.x(track.start[index]), width = track.length[index] * this.scale;
      this.boxes += 1;
      if (width >= THIN) {
        this.drawItem(track, index, x, y + 1, width, height);
        index += 1;
      } else {
        this.pen.fillStyle = this.colourOf(track, index);
        this.pen.fillRect(x, y + 1, THIN, height);
        index = Math.max(index + 1, track.at(Math.ceil(track.start[index] + THIN / this.scale)));
      }
    }
    for (let k = firstFrom(track.marks, first); k < track.marks.length; k += 1) {
      const index = track.marks[k];
      if (track.start[index] - track.before[index] >= end) break;
      this.drawDissolve(track, index, y + 1, height);
    }
  }

  colourOf(track, index) {
    if (track.kind[index] === DARK) return this.colours.gap;
    return this.fill(track.kind[index] === NEST ? \"a nest\" : this.shown.nameOf(MEDIA, track.thing[index]));
  }

  drawItem(track, index, x, y, width, height) {
    const { pen, colours } = this, isGap = track.kind[index] === DARK;
    pen.fillStyle = this.colourOf(track, index);
    pen.fillRect(x, y, width, height);
    if (width < 4) return;
    pen.strokeStyle = isGap ? colours.rule : colours.quiet;
    pen.setLineDash(isGap ? [3, 3] : []);
    pen.lineWidth = track.kind[index] === NEST ? 2 : 1;
    pen.strokeRect(x + 0.5, y + 0.5, width - 1, height - 1);
    pen.setLineDash([]);
    pen.lineWidth = 1;
    if (!isGap && width > 2.2 * this.rem) this.drawWords(track, index, x, y, width, height);
  }

"
}

// Part 3 of 4 of the picture.
pub(crate) fn picture_3() -> &'static str
    ensures { result.now ≡ picture_3 }
{
    "  /** The name, and below it source frames, item and link, as far as there is room. */
  drawWords(track, index, x, y, width, height) {
    const { pen, rem } = this, size = 0.8 * rem;
    const from = Math.max(x + track.after[index] * this.scale, this.left) + 0.3 * rem; // after the dissolve at its head
    const tail = index + 1 < track.count ? track.before[index + 1] * this.scale : 0; // of the dissolve after it
    const room = Math.min(x + width - tail, this.left + this.width) - from - 0.3 * rem;
    const name = this.shown.nameOf(track.kind[index], track.thing[index]);
    const link = track.link[index] < 0 ? \"\" : `  link ${linkWord(track.link[index])}`;
    const number = this.shown.hasNumbers ? `${track.item[index]}  ` : \"\";
    const more = `${number}${track.source[index]}+${track.length[index]}${link}`;
    const rows = height > 2.4 * rem ? [[name, 0.3], [more, 0.7]] : [[name, 0.5]];
    pen.fillStyle = this.colours[\"item-ink\"];
    pen.font = `${size}px system-ui, sans-serif`;
    for (const [text, part] of rows) this.clipped(text, from, y + height * part, room);
  }

  /** As much of a text as has room. */
  clipped(text, x, y, room) {
    if (room < 0.9 * this.rem) return;
    let part = text;
    for (let length = text.length - 1; length > 0 && this.pen.measureText(part).width > room; length -= 1) {
      length = Math.min(length, Math.floor(room / (0.3 * this.rem))); // no letter is thinner than that, but a few
      part = `${text.slice(0, length)}\u{2026}`;
    }
    this.pen.fillText(part, x, y);
  }

  /** A dissolve as a crossed box from its first frame to its last. */
  drawDissolve(track, index, y, height) {
    const { pen, colours } = this, cut = track.start[index];
    const x = this.x(cut - track.before[index]), width = (track.before[index] + track.after[index]) * this.scale;
    pen.strokeStyle = colours.ink;
    if (width < 3) return;
    pen.globalAlpha = 0.35;
    pen.fillStyle = colours.ground;
    pen.fillRect(x, y, width, height);
    pen.globalAlpha = 1;
    pen.strokeRect(x + 0.5, y + 0.5, width - 1, height - 1);
    pen.beginPath();
    pen.moveTo(x, y);
    pen.lineTo(x + width, y + height);
    pen.moveTo(x, y + height);
    pen.lineTo(x + width, y);
    pen.stroke();
  }

  /** Lines between linked items that are seen, by the middles of what is seen of them. */
  drawLinks(rows) {
    const found = new Map(), end = this.from + this.width / this.scale;
    for (const [row, number] of rows.entries()) {
      const track = this.tracks[number];
      if (!track?.count || !this.isSeen(row)) continue;
      for (let k = firstFrom(track.links, track.at(this.from)); k < track.links.length; k += 1) {
        const index = track.links[k];
        if (track.start[index] >= end) break;
        if (track.length[index] * this.scale < NEAR) continue; // so many lines would be no picture
        const from = Math.max(this.from, track.start[index]), to = Math.min(end, track.end(index));
        const points = found.get(track.link[index]) ?? [];
        points.push([this.x((from + to) / 2), this.y(row) + this.rowHeight / 2]);
        found.set(track.link[index], points);
      }
    }
    this.pen.strokeStyle = this.pen.fillStyle = this.colours.bad;
    for (const points of found.values()) this.drawLink(points);
  }

  drawLink(points) {
    const { pen } = this;
    pen.beginPath();
    for (const [x, y] of points) pen.lineTo(x, y);
    pen.stroke();
    for (const [x, y] of points) pen.fillRect(x - 2, y - 2, 4, 4);
  }

  flash(number, [from, to], words) {
    this.flashes.push({ number, from, to, words, until: performance.now() + FLASH });
    this.ask();
  }

  drawFlashes(rows) {
    const { pen, colours } = this, now = performance.now();
    this.flashes = this.flashes.filter((flash) => flash.until > now).slice(-64);
    if (past.cut) return;
    for (const { number, from, to, words, until } of this.flashes) {
      const y = this.y(rows.indexOf(number)) + 1, x = Math.max(this.left, this.x(from)), height = this.rowHeight - 2;
      const width = Math.max(4, Math.min(this.left + this.width, this.x(to)) - x);
      pen.globalAlpha = matchMedia(\"(prefers-reduced-motion: reduce)\").matches ? 0.3 : 0.4 * (until - now) / FLASH;
      pen.fillStyle = colours.flash;
      pen.fillRect(x, y, width, height);
      pen.globalAlpha = 1;
      pen.strokeStyle = colours.flash;
      pen.strokeRect(x, y, width, height);
      this.tag(words, x, y + height / 2, colours.flash);
    }
    if (this.flashes.length) this.ask();
  }

"
}

// Part 4 of 4 of the picture.
pub(crate) fn picture_4() -> &'static str
    ensures { result.now ≡ picture_4 }
{
    "  /** Words on a ground of their own, within the view. */
  tag(words, x, y, colour) {
    const { pen, rem } = this;
    pen.font = `600 ${0.85 * rem}px system-ui, sans-serif`;
    const width = pen.measureText(words).width + 0.6 * rem, from = Math.min(x, this.left + this.width - width);
    pen.fillStyle = colour;
    pen.fillRect(from, y - 0.7 * rem, width, 1.4 * rem);
    pen.fillStyle = this.colours.ground;
    pen.fillText(words, from + 0.3 * rem, y);
  }

  /** What is chosen: the item or gap, its cut, and the items that are to be linked. */
  drawChoice(rows) {
    const { pen, colours } = this;
    const box = (number, index, width) => {
      const track = this.tracks[number], y = this.y(rows.indexOf(number)), x = this.x(track.start[index]);
      pen.lineWidth = width;
      pen.strokeStyle = colours.accent;
      pen.strokeRect(x + 1, y + 2, Math.max(2, track.length[index] * this.scale - 2), this.rowHeight - 4);
      pen.lineWidth = 1;
    };
    for (const [number, item] of choice.linking) {
      const index = this.tracks[number]?.of(item) ?? -1;
      if (index >= 0 && !past.cut) box(number, index, 1.5);
    }
    const index = choice.index();
    if (index < 0) return;
    box(choice.track, index, 3);
    const cut = choice.cut();
    if (cut === null) return;
    pen.fillStyle = colours.accent;
    pen.fillRect(this.x(cut) - 3, this.y(rows.indexOf(choice.track)), 6, this.rowHeight);
  }

  drawHead(number, y) {
    const { pen, colours, rem } = this, isWith = choice.with.has(number), isOwn = choice.track === number;
    pen.fillStyle = isOwn ? colours.accent : isWith ? colours.rule : colours.panel;
    pen.fillRect(0, y, this.left - 2, this.rowHeight - 1);
    pen.fillStyle = isOwn ? colours.ground : colours.ink;
    pen.font = `600 ${0.9 * rem}px system-ui, sans-serif`;
    const kind = this.shown.kinds[number] === \"Audio\" ? \"\u{266a}\" : \"\u{25ad}\";
    pen.fillText(`${kind} ${number}${isWith ? \" +\" : \"\"}`, 0.3 * rem, y + this.rowHeight / 2);
  }

  /** How many frames lie between two labels of the ruler, so that they have room. */
  step() {
    const { fps } = live.counting, room = 7.5 * this.rem / this.scale;
    const seconds = [1, 2, 5, 10, 15, 30, 60, 120, 300, 600, 900, 1800, 3600, 7200, 14400].map((count) => count * fps);
    return [1, 2, 5, 10, ...seconds].find((count) => count >= room) ?? 28800 * fps;
  }

  drawRuler() {
    const { pen, colours, rem } = this, step = this.step(), { counting } = live;
    pen.fillStyle = colours.panel;
    pen.fillRect(0, 0, this.canvas.clientWidth, this.ruler);
    pen.font = `${0.8 * rem}px ui-monospace, \"DejaVu Sans Mono\", monospace`;
    const offset = step >= counting.fps ? counting.start % step : 0; // labels on whole seconds of the room
    const first = Math.floor((this.from + offset) / step) * step - offset;
    for (let place = first; this.x(place) < this.left + this.width; place += step) {
      if (place < 0 || this.x(place) < this.left - 1) continue;
      pen.fillStyle = colours.rule;
      pen.fillRect(this.x(place), this.ruler * 0.5, 1, this.ruler * 0.5);
      const label = counting.at(place), x = this.x(place) + 0.2 * rem;
      pen.fillStyle = colours.ink;
      if (x + pen.measureText(label).width < this.canvas.clientWidth) pen.fillText(label, x, this.ruler * 0.5);
    }
    pen.fillStyle = colours.panel;
    pen.fillRect(0, 0, this.left - 1, this.ruler);
  }

  /** The whole cut in a strip, with a frame around what is seen above. */
  drawWhole(rows) {
    const pen = this.wholePen, width = this.whole.clientWidth, height = this.whole.clientHeight;
    const each = (height - 4) / Math.max(1, rows.length);
    this.start(pen, this.whole);
    const scale = width / (this.frames * 1.02 + 1);
    for (const [row, number] of rows.entries()) {
      const track = this.tracks[number];
      for (let index = 0; track && index < track.count;) {
        const x = track.start[index] * scale;
        pen.fillStyle = this.colourOf(track, index);
        pen.fillRect(x, 2 + row * each, Math.max(1, track.length[index] * scale), Math.max(1, each - 0.5));
        index = Math.max(index + 1, track.at(Math.ceil((x + 1) / scale)));
      }
    }
    pen.strokeStyle = this.colours.accent;
    pen.lineWidth = 2;
    pen.strokeRect(this.from * scale + 1, 1, Math.max(4, (this.width / this.scale) * scale - 2), height - 2);
    this.wholeScale = scale;
  }
}

"
}

// Of the page of a room: its style.
// Made by tools/page/embed of page/room.html. Change that, and make this again.
ghost use Rattle.std.specs.Prelude.{◌≡◌};
ghost use Rattle.room_page.specs.PageStyle.{style_1};

// All of the style.
pub(crate) fn style_1() -> &'static str
    ensures { result.now ≡ style_1 }
{
    ":root {
  --ground: #ffffff; --panel: #f3f4f6; --ink: #16181d; --quiet: #565c67; --rule: #c9ced6; --gap: #e8eaee;
  --accent: #0b57d0; --good: #146c2e; --warn: #8a5000; --bad: #b3261e; --flash: #d6006c; --item-ink: #14161a;
  --item-light: 78%; --item-full: 62%;
  color-scheme: light;
}
:root[data-theme=\"dark\"] {
  --ground: #15171b; --panel: #1f2228; --ink: #eceef2; --quiet: #a9b0bc; --rule: #434a56; --gap: #23272e;
  --accent: #8ab4f8; --good: #7fd69a; --warn: #f2b866; --bad: #ff8a80; --flash: #ff7ac0; --item-ink: #f6f7f9;
  --item-light: 30%; --item-full: 46%;
  color-scheme: dark;
}
* { box-sizing: border-box; }
body { margin: 0; background: var(--ground); color: var(--ink); font: 1rem/1.4 system-ui, sans-serif; }
[hidden] { display: none !important; }
h1, h2 { margin: 0; font-size: 1rem; }
button, input, select { font: inherit; color: inherit; background: var(--ground); border: 1px solid var(--quiet);
  border-radius: .3rem; padding: .25rem .5rem; min-height: 2rem; max-width: 100%; }
button { background: var(--panel); cursor: pointer; }
button:disabled { opacity: .55; cursor: default; }
input[type=\"checkbox\"] { min-height: 0; }
input[type=\"range\"] { padding: 0; accent-color: var(--accent); }
:focus-visible { outline: 3px solid var(--accent); outline-offset: 1px; }
kbd, code, .words { font-family: ui-monospace, \"DejaVu Sans Mono\", monospace; font-size: .9rem; }
kbd { border: 1px solid var(--rule); border-radius: .2rem; padding: 0 .25rem; background: var(--panel); }
#door { max-width: 24rem; margin: 12vh auto 0; padding: 1rem; display: grid; gap: .75rem; }
#door label { display: grid; gap: .2rem; }
#room { display: grid; gap: .5rem; padding: .5rem; }
header, .row { display: flex; flex-wrap: wrap; gap: .4rem .75rem; align-items: center; }
header { min-height: 2.25rem; }
header .space { flex: 1; }
#state { font-weight: 600; }
#state[data-state=\"seated\"] { color: var(--good); }
#state[data-state=\"slow\"], #state[data-state=\"connecting\"] { color: var(--warn); }
#state[data-state=\"lost\"], #state[data-state=\"taken\"], #state[data-state=\"refused\"] { color: var(--bad); }
#away { background: var(--bad); color: var(--ground); padding: .4rem .6rem; border-radius: .3rem; }
#told { background: var(--panel); border-left: .3rem solid var(--warn); padding: .3rem .6rem; }
#picture, #whole { display: block; width: 100%; border: 1px solid var(--rule); border-radius: .3rem; }
#picture, #whole { touch-action: none; }
#picture { height: clamp(13rem, 46vh, 40rem); }
#whole { height: 2.25rem; cursor: pointer; }
#chosen { min-height: 1.4em; }
.past #picture { border-color: var(--warn); border-style: dashed; }
#past-told { color: var(--warn); font-weight: 600; }
#slider { flex: 1 1 12rem; min-width: 8rem; }
#place-of { width: 7.5rem; }
.columns { display: grid; gap: .5rem; grid-template-columns: minmax(0, 1fr) minmax(0, 1fr); align-items: start; }
@media (max-width: 56rem) { .columns { grid-template-columns: minmax(0, 1fr); } }
.panel { background: var(--panel); border-radius: .4rem; padding: .5rem .6rem; display: grid; gap: .5rem; }
#fields { display: flex; flex-wrap: wrap; gap: .5rem; }
#fields label { display: inline-flex; gap: .35rem; align-items: center; }
#fields input[type=\"number\"] { width: 8rem; }
#line { flex: 1 1 14rem; min-width: 0; font-family: ui-monospace, \"DejaVu Sans Mono\", monospace; }
#edits { height: 14rem; overflow: auto; position: relative; background: var(--ground); border: 1px solid var(--rule); }
#edits > div { position: relative; }
.entry { position: absolute; left: 0; right: 0; height: 1.75rem; line-height: 1.75rem; padding: 0 .4rem; }
.entry { white-space: pre; overflow: hidden; text-overflow: ellipsis; cursor: pointer; }
.entry.mine { color: var(--accent); }
.entry.active { background: var(--gap); }
#talk { margin: 0; padding: 0; list-style: none; max-height: 14rem; overflow: auto; }
#talk li { padding: .15rem 0; border-bottom: 1px solid var(--rule); overflow-wrap: anywhere; }
.good { color: var(--good); } .bad { color: var(--bad); } .quiet { color: var(--quiet); }
table { border-collapse: collapse; width: 100%; }
th, td { text-align: left; vertical-align: top; padding: .2rem .5rem .2rem 0; border-bottom: 1px solid var(--rule); }
summary { cursor: pointer; padding: .2rem 0; }
"
}

// Of the page of a room: its markup, before the style, after it and at the end.
// Made by tools/page/embed of page/room.html. Change that, and make this again.
ghost use Rattle.std.specs.Prelude.{◌≡◌};
ghost use Rattle.room_page.specs.PageMarkup.{markup_1, markup_2, markup_3};

// All of the head.
pub(crate) fn markup_1() -> &'static str
    ensures { result.now ≡ markup_1 }
{
    "<!doctype html>
<html lang=\"en\">
<head>
<meta charset=\"utf-8\">
<!-- The page of a cutting room: a station in a browser (docs/PAGE.md). One file, without a framework or a build step.

     It asks for nothing but `/station` of the host that it came from. Its policy allows one script and one style, those
     below, each by the hash of its text (SHA-256). So a server needs no nonce, and sends the file as it is. The policy
     stands in the next element. A server sends the same one as a field, with `frame-ancestors 'none'` added, which has
     no force in an element. `tools/page/policy` sees that the hashes are right, and with `--write` puts them in. -->
<meta http-equiv=\"Content-Security-Policy\" content=\"default-src 'none';
 script-src 'sha256-lIzSPpeII8AtwCuv88eHGWFJiwIjDwMERdRTxXiiWqM=';
 style-src 'sha256-qUHbo6+TUn78HDeJYJN6wpVVZnMtlnv1CWDBYxRZtOM=';
 connect-src 'self'; base-uri 'none'; form-action 'none'; require-trusted-types-for 'script'\">
<meta name=\"viewport\" content=\"width=device-width, initial-scale=1\">
<meta name=\"color-scheme\" content=\"light dark\">
<title>Cutting room</title>
<style>
"
}

// All of the body.
pub(crate) fn markup_2() -> &'static str
    ensures { result.now ≡ markup_2 }
{
    "</style>
</head>
<body>
<form id=\"door\" autocomplete=\"off\">
  <h1>Cutting room</h1>
  <label>Name <input id=\"name\" required maxlength=\"32\" pattern=\"[A-Za-z0-9._\\-]+\" spellcheck=\"false\"></label>
  <label>Key <input id=\"key\" type=\"password\" required minlength=\"16\" maxlength=\"64\" autocomplete=\"off\"></label>
  <button>Sit down</button>
  <p id=\"door-told\" role=\"alert\" class=\"bad\"></p>
  <p class=\"quiet\">Name and key are those of a line of the room's crew. The key goes to this room alone, and is
    forgotten when this tab closes.</p>
</form>

<main id=\"room\" hidden>
  <header>
    <h1>Cutting room</h1>
    <span id=\"who\"></span>
    <span id=\"state\" role=\"status\"></span>
    <span id=\"point\" class=\"quiet\"></span>
    <span class=\"space\"></span>
    <button id=\"theme\" type=\"button\">Dark</button>
    <button id=\"out\" type=\"button\" title=\"The seat stays; sit down again whenever you like\">Sign out</button>
    <button id=\"leave\" type=\"button\" title=\"Ends this station for good\">Leave</button>
  </header>
  <p id=\"away\" role=\"alert\" hidden></p>
  <p id=\"told\" role=\"status\" hidden></p>

  <canvas id=\"picture\" tabindex=\"0\" role=\"application\" aria-label=\"The tracks. Arrows move the place; ? shows all keys.\"
    aria-describedby=\"chosen\"></canvas>
  <canvas id=\"whole\" aria-hidden=\"true\"></canvas>
  <div class=\"row\">
    <button id=\"nearer\" type=\"button\" aria-label=\"Zoom in\">+</button>
    <button id=\"farther\" type=\"button\" aria-label=\"Zoom out\">\u{2212}</button>
    <button id=\"all\" type=\"button\">Whole cut</button>
    <label class=\"row\">Place <input id=\"place-of\" spellcheck=\"false\" autocomplete=\"off\"></label>
    <output id=\"chosen\" aria-live=\"polite\"></output>
  </div>

  <div class=\"row\" id=\"past\">
    <label for=\"slider\">The cut after</label>
    <input id=\"slider\" type=\"range\" min=\"0\" max=\"0\" value=\"0\" step=\"1\">
    <input id=\"at\" type=\"number\" min=\"0\" value=\"0\" aria-label=\"entries of the journal\">
    <span>entries</span>
    <button id=\"now\" type=\"button\">Now</button>
    <button id=\"save\" type=\"button\">Save the document</button>
    <button id=\"save-journal\" type=\"button\">Save the list of edits</button>
    <span id=\"past-told\" role=\"status\"></span>
  </div>

  <div class=\"columns\">
    <section class=\"panel\" aria-label=\"Edit\">
      <div class=\"row\">
        <label class=\"row\">Edit <select id=\"tool\"></select></label>
        <button id=\"back\" type=\"button\" title=\"Takes back your last edit that can be\">Back</button>
        <span id=\"with\" class=\"quiet\"></span>
      </div>
      <div id=\"fields\"></div>
      <form id=\"send\" class=\"row\">
        <label for=\"line\">Line</label>
        <input id=\"line\" spellcheck=\"false\" autocomplete=\"off\" maxlength=\"1024\">
        <button>Send</button>
      </form>
      <ol id=\"talk\" aria-label=\"Your lines, the last first\" aria-live=\"polite\"></ol>
    </section>
    <section class=\"panel\" aria-label=\"Edits of all stations\">
      <h2>Edits of all stations</h2>
      <div id=\"edits\" tabindex=\"0\" role=\"listbox\" aria-label=\"Edits; Enter shows the cut after one\"><div></div></div>
      <p class=\"quiet\">A click, or Enter, shows the cut after an edit.</p>
    </section>
  </div>
  <details id=\"keys\"><summary>Keys</summary><table><tbody></tbody></table></details>
  <details id=\"codes\"><summary>Codes of refusals</summary><table><tbody></tbody></table></details>
</main>
<script type=\"module\">
"
}

// All of the end.
pub(crate) fn markup_3() -> &'static str
    ensures { result.now ≡ markup_3 }
{
    "</script>
</body>
</html>
"
}

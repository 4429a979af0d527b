//! The fixed pieces of the page, in the order in which they are used.

/// What each page begins with.
pub const PAGE_FRONT: &str = "<!doctype html>\n";

pub(crate) const HEAD: &str = "<html lang=\"en\">\n<meta charset=\"utf-8\">\n\
<meta name=\"viewport\" content=\"width=device-width, initial-scale=1\">\n";

pub(crate) const STYLE: &str = "<style>
:root { color-scheme: light dark; --ink: #1b1f24; --back: #fff; --line: #b7bec8; --map: #cfe3ff;
  --reduce: #d9f2d0; --bad: #ffd6cc; --plain: #e9ecf0 }
@media (prefers-color-scheme: dark) { :root { --ink: #e6e9ee; --back: #15181c; --line: #4a525d;
  --map: #1d3f6e; --reduce: #23502a; --bad: #6e2a1d; --plain: #2b3138 } }
body { font: 15px/1.45 system-ui, sans-serif; color: var(--ink); background: var(--back);
  margin: 1rem auto; padding: 0 1rem; max-width: 90rem; overflow-wrap: anywhere }
h1 { font-size: 1.3rem } .end { font-size: 1.1rem; font-weight: 600 }
dl { display: grid; grid-template-columns: repeat(auto-fill, minmax(9rem, 1fr)); gap: .4rem 1rem }
dl div { border-left: 3px solid var(--line); padding-left: .5rem }
dd { margin: 0; font-size: 1.15rem; font-variant-numeric: tabular-nums } dt { font-size: .85rem }
.keys { display: flex; flex-wrap: wrap; gap: .2rem 1rem; padding: 0; list-style: none }
.keys svg { vertical-align: middle }
#now { display: block; min-height: 3em; padding: .3rem .5rem; border: 1px solid var(--line) }
.box { display: flex; overflow-x: auto; border: 1px solid var(--line); margin: .5rem 0 }
.box svg { flex: none } .names { position: sticky; left: 0; background: var(--back) }
text { font: 10px system-ui, sans-serif; fill: var(--ink) }
.shape, rect { stroke: var(--ink); stroke-width: 1; fill: var(--plain) }
.m { fill: var(--map) } .r { fill: var(--reduce) } .bad { fill: var(--bad) }
.b { stroke-dasharray: 4 2; stroke-width: 2 } .row { stroke: var(--line) }
.lost { stroke: none; fill: url(#hatch) }
.k:hover rect { stroke-width: 2 } .k:focus { outline: 3px solid var(--ink) }
table { border-collapse: collapse } td, th { text-align: left; padding: .1rem .8rem .1rem 0;
  vertical-align: top; border-bottom: 1px solid var(--line) }
</style>
";

/// The shapes of the marks, each with its letter, and the hatching of a lost worker's row.
pub(crate) const SHAPES: &str =
    "<svg width=\"0\" height=\"0\" style=\"position:absolute\" aria-hidden=\"true\">
<defs><pattern id=\"hatch\" width=\"6\" height=\"6\" patternUnits=\"userSpaceOnUse\">
<path d=\"M0 6 6 0\" stroke=\"currentColor\" stroke-opacity=\".35\"/></pattern>
<g id=\"f\"><path class=\"shape\" d=\"M1 7 7 1 13 7z\"/><text x=\"5\" y=\"13\">f</text></g>
<g id=\"D\"><circle class=\"shape m\" cx=\"7\" cy=\"7\" r=\"6\"/>\
<text x=\"3.5\" y=\"10.5\">D</text></g>
<g id=\"C\"><circle class=\"shape r\" cx=\"7\" cy=\"7\" r=\"6\"/>\
<text x=\"3.5\" y=\"10.5\">C</text></g>
<g id=\"X\"><path class=\"shape bad\" d=\"M4 1h6l3 3v6l-3 3h-6l-3-3v-6z\"/>\
<text x=\"3.8\" y=\"10.5\">X</text></g>
<g id=\"L\"><path class=\"shape bad\" d=\"M0 1h14l-7 13z\"/><text x=\"4.5\" y=\"9.5\">L</text></g>
<g id=\"Z\"><path class=\"shape bad\" d=\"M7 0l7 7-7 7-7-7z\"/><text x=\"4\" y=\"10.5\">Z</text></g>
<g id=\"g\"><path class=\"shape bad\" d=\"M1 13 7 1l6 12z\"/><text x=\"3.5\" y=\"12\">g</text></g>
<g id=\"i\"><path class=\"shape\" stroke-dasharray=\"2 1\" d=\"M1 1h12v12H1z\"/>\
<text x=\"5.5\" y=\"10.5\">i</text></g>
<g id=\"w\"><path class=\"shape\" d=\"M1 9h12v4H1z\"/><text x=\"3.5\" y=\"8\">w</text></g>
<g id=\"S\"><path class=\"shape\" d=\"M1 1h12v12H1z\"/><text x=\"4\" y=\"10.5\">S</text></g>
</defs></svg>
";

pub(crate) const KEYS: &str = "<h2>Picture</h2>
<p>A row is a worker; events run to the right in their order. A bar is an attempt, from its ask \
to its end: M and the split, or R and the partition.</p>
<ul class=\"keys\">
<li><svg width=\"34\" height=\"18\">\
<rect class=\"m b\" x=\"2\" y=\"2\" width=\"30\" height=\"14\"/>\
<text x=\"6\" y=\"13\">M0 b</text></svg> a backup</li>
<li><svg width=\"14\" height=\"14\"><use href=\"#D\"/></svg> map done</li>
<li><svg width=\"14\" height=\"14\"><use href=\"#C\"/></svg> partition committed</li>
<li><svg width=\"14\" height=\"14\"><use href=\"#f\"/></svg> output fetched</li>
<li><svg width=\"14\" height=\"14\"><use href=\"#g\"/></svg> output gone</li>
<li><svg width=\"14\" height=\"14\"><use href=\"#X\"/></svg> failed on a record</li>
<li><svg width=\"14\" height=\"14\"><use href=\"#Z\"/></svg> region damaged</li>
<li><svg width=\"14\" height=\"14\"><use href=\"#L\"/></svg> worker lost (its row is hatched)</li>
<li><svg width=\"14\" height=\"14\"><use href=\"#i\"/></svg> ignored</li>
<li><svg width=\"14\" height=\"14\"><use href=\"#w\"/></svg> waits</li>
<li><svg width=\"14\" height=\"14\"><use href=\"#S\"/></svg> stops</li>
</ul>
";

pub(crate) const LABEL: &str = "<output id=\"now\">Point at a mark, or tab to one and use the \
arrow keys: its event is shown here.</output>\n<div class=\"box\">\n";

pub(crate) const SCRIPT: &str = "<script>
const now = document.getElementById('now'), marks = [...document.querySelectorAll('.k')];
const mark = e => e.target.closest && e.target.closest('.k');
const tell = e => {
  const m = mark(e);
  if (m) now.textContent = m.querySelector('title').textContent;
};
document.addEventListener('mouseover', tell);
document.addEventListener('focusin', tell);
document.addEventListener('keydown', e => {
  const step = { ArrowRight: 1, ArrowDown: 1, ArrowLeft: -1, ArrowUp: -1 }[e.key], m = mark(e);
  if (!step || !m) return;
  const next = marks[marks.indexOf(m) + step];
  if (next) { e.preventDefault(); next.focus() }
});
</script>
</html>
";

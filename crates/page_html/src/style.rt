//! The style sheet.

/// The style sheet of all pages.
pub const STYLE: &[u8] = b"\
:root { color-scheme: light dark; --ink: #1f1d1a; --soft: #5a554c; --paper: #fbfaf7; --card: #fff; --line: #d6d0c2; --link: #17527a; --mark: #e6eef3; --chosen: #17527a; --won: #fff; --drawn: #a8a39a; --lost: #2b2926; --edge: #6b665c }
@media (prefers-color-scheme: dark) {
  :root { --ink: #e8e4dc; --soft: #b3ada2; --paper: #1b1a18; --card: #232120; --line: #45413b; --link: #8cc4ec; --mark: #2c3942; --chosen: #8cc4ec; --won: #f1eee8; --drawn: #8b867d; --lost: #000; --edge: #8b867d }
}
* { box-sizing: border-box }
html { scrollbar-gutter: stable }
body { margin: 0 auto; max-width: 72rem; padding: .5rem 1rem 2rem; color: var(--ink); background: var(--paper); font: 16px/1.45 system-ui, sans-serif; overflow-wrap: anywhere }
a { color: var(--link); text-underline-offset: .15em; text-decoration-thickness: 1px }
a:hover { text-decoration-thickness: 2px }
:focus-visible { outline: 2px solid var(--link); outline-offset: 2px }
header { border-bottom: 1px solid var(--line); margin-bottom: 1rem; padding-bottom: .25rem }
header p { margin: .25rem 0; color: var(--soft) }
.way { font-size: 1.1rem; line-height: 1.7 }
.way span, .line span { color: var(--soft) }
h1 { font-size: 1.3rem; margin: 0 0 .25rem; line-height: 1.2 }
main { display: flex; flex-wrap: wrap; gap: 1rem 1.75rem; align-items: flex-start }
.boards { flex: 1 1 17rem; max-width: 27rem; min-width: 0; margin: 0 auto }
.tables { flex: 3 1 31rem; min-width: 0 }
.board svg { display: block; width: 100%; height: auto }
.board p { margin: .15rem 0; font-size: .9rem; text-align: right }
.board text { font-size: 12px; fill: var(--soft); text-anchor: middle }
.pin { position: fixed; top: 0 }
.turned { display: none }
html:not(.scripted) #turned:target ~ main .turned, .scripted.back .turned { display: block }
html:not(.scripted) #turned:target ~ main .facing, .scripted.back .facing { display: none }
.defs { position: absolute }
.light { fill: #f0dfc0 }
.dark { fill: #b98b5e }
.last { fill: #9bc700; fill-opacity: .5 }
.white { fill: #fff; stroke: #222; stroke-width: 1.5; stroke-linejoin: round }
.black { fill: #2d2d2d; stroke: #000; stroke-width: 1.5; stroke-linejoin: round }
.opening { margin: .25rem 0 .5rem; font-size: 1.1rem }
.copies label { display: flex; gap: .5rem; align-items: center; margin-top: .4rem; font-size: .9rem; color: var(--soft) }
.copies input { flex: 1; min-width: 0; padding: .3rem .4rem; color: var(--ink); background: var(--card); border: 1px solid var(--edge); border-radius: 3px; font: .85rem/1.3 ui-monospace, monospace }
button { padding: .3rem .6rem; color: var(--ink); background: var(--card); border: 1px solid var(--edge); border-radius: 3px; font: inherit; cursor: pointer }
.controls { display: flex; flex-wrap: wrap; gap: .4rem; align-items: center; margin-top: .5rem }
.controls button { min-width: 2.75rem; font-size: 1.1rem }
.controls p { flex: 1 1 100%; margin: 0; color: var(--soft) }
.facts { margin: .25rem 0 1rem }
.line { font-size: 1.05rem; line-height: 1.8 }
.line a { padding: .1rem .15rem; border-radius: 3px; color: var(--ink); white-space: nowrap }
.line a:target, .line a[aria-current] { background: var(--chosen); color: var(--paper) }
h2 { font-size: 1rem; margin: 1.25rem 0 .25rem }
.pgn { margin: .5rem 0; padding: .75rem; overflow-x: auto; background: var(--card); border: 1px solid var(--line); font: .85rem/1.5 ui-monospace, monospace; white-space: pre-wrap }
.scroll { overflow-x: auto; margin-bottom: 1.25rem }
table { border-collapse: collapse; width: 100%; font-size: .95rem }
caption { text-align: left; font-weight: 600; padding: .25rem 0 }
th, td { padding: .3rem .4rem; border-bottom: 1px solid var(--line); text-align: right; vertical-align: top; overflow-wrap: normal }
thead th { color: var(--soft); font-size: .8rem; font-weight: normal; vertical-align: bottom }
td { font-variant-numeric: tabular-nums }
tbody tr:hover { background: var(--mark) }
th:first-child, .results, .games th, .games td { text-align: left }
.moves tbody th, tfoot th, tfoot td { font-weight: 600 }
.moves th:first-child { white-space: nowrap }
.games .number, .games .rating, .games .year { text-align: right }
.games tbody th { font-weight: normal }
.games tbody th, .games tbody td { overflow-wrap: anywhere }
.games tbody .result { white-space: nowrap; overflow-wrap: normal }
tfoot th, tfoot td { border-top: 2px solid var(--line); border-bottom: 0 }
.results { width: 27% }
.results svg { display: block; width: 100%; min-width: 4rem; height: .75rem; margin-top: .35rem; border: 1px solid var(--edge) }
.results small { color: var(--soft) }
.won { fill: var(--won) }
.drawn { fill: var(--drawn) }
.lost { fill: var(--lost) }
@media (max-width: 68rem) { .moves .year, .games .event { display: none } }
@media (max-width: 60rem) { .moves .other, .games .number { display: none } }
@media (max-width: 40rem) {
  body { padding: .25rem .5rem 1rem; font-size: 15px }
  .moves .rating, .games .rating { display: none }
  th, td { padding: .3rem .2rem }
  .results svg { min-width: 3rem }
}
@media (max-width: 24rem) { .moves .share { display: none } }
@media print {
  :root { color-scheme: light; --ink: #000; --soft: #000; --paper: #fff; --card: #fff; --line: #999; --link: #000; --mark: #fff; --chosen: #000; --won: #fff; --drawn: #aaa; --lost: #000; --edge: #000 }
  body { max-width: none; padding: 0; font-size: 10pt }
  a { text-decoration: none }
  button, .turn, .controls { display: none }
  .boards { flex: 0 0 7cm }
  .board svg, .results svg { print-color-adjust: exact; -webkit-print-color-adjust: exact }
  .light { fill: #fff }
  .dark { fill: #ccc }
  .scroll { overflow: visible }
  tr, .board { break-inside: avoid }
}
";

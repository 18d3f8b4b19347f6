//! The style sheet of the page.

/// Colours are those of Okabe and Ito, which colour-blind readers can tell apart.
pub(crate) const STYLE: &str =
    r#":root { color-scheme: light dark; --paper: #fff; --ink: #1b1b1b; --soft: #5a5a5a; --rule: #d5d5d5; --lane: #f3f3f3; --odd: #e9e9e9;
  --act: #e69f00; --rd: #0072b2; --wr: #d55e00; --pre: #009e73; --prea: #cc79a7; --ref: #000; --band: #56b4e9; --stall: #56b4e9; --memory: #f0e442; --none: #bdbdbd; }
@media (prefers-color-scheme: dark) { :root { --paper: #15171a; --ink: #ececec; --soft: #ababab; --rule: #3b3f45; --lane: #1e2125; --odd: #272b30;
  --rd: #56b4e9; --ref: #fff; --band: #7d97ad; --none: #5f6368; } }
* { box-sizing: border-box; }
body { margin: 0; background: var(--paper); color: var(--ink); font: 15px/1.45 system-ui, "Segoe UI", "Helvetica Neue", Arial, sans-serif; }
main { max-width: 1240px; margin: 0 auto; padding: 24px; }
h1 { font-size: 26px; margin: 0; }
h2 { font-size: 20px; margin: 36px 0 10px; padding-top: 10px; border-top: 1px solid var(--rule); }
h3 { font-size: 16px; margin: 24px 0 2px; }
p { margin: 2px 0 10px; max-width: 100ch; color: var(--soft); }
.run { color: var(--ink); font-size: 16px; }
.wide { overflow-x: auto; }
table { border-collapse: collapse; font-variant-numeric: tabular-nums; font-size: 14px; }
th, td { padding: 3px 12px; text-align: right; }
thead th { font-weight: 600; color: var(--soft); vertical-align: bottom; line-height: 1.25; }
thead th[colspan] { text-align: center; border-bottom: 1px solid var(--rule); }
tbody tr:first-child > * { border-top: 1px solid var(--ink); }
tbody tr:last-child > * { border-bottom: 1px solid var(--ink); }
nav a { color: var(--rd); margin-right: 16px; }
summary { cursor: pointer; font-weight: 600; margin: 10px 0 4px; }
.keys { list-style: none; display: flex; flex-wrap: wrap; gap: 2px 18px; margin: 4px 0; padding: 0; font-size: 14px; font-variant-numeric: tabular-nums; }
.keys b { color: var(--soft); font-weight: 400; }
.legend { list-style: none; display: flex; flex-wrap: wrap; gap: 4px 18px; margin: 4px 0 10px; padding: 0; font-size: 13px; }
svg.patch { display: inline-block; width: 12px; height: 12px; margin-right: 6px; vertical-align: -1px; }
.grid { display: grid; grid-template-columns: repeat(auto-fit, minmax(min(100%, 270px), 1fr)); gap: 14px 22px; }
.strips { display: grid; grid-template-columns: repeat(auto-fit, minmax(min(100%, 540px), 1fr)); gap: 10px 22px; }
figure { margin: 0; }
figcaption { font-size: 12px; color: var(--soft); margin-bottom: 6px; } figcaption b { color: var(--ink); font-weight: 600; margin-right: 8px; }
.plot, .strip { position: relative; margin: 0 14px 24px 40px; font-size: 11px; line-height: 12px; color: var(--soft); font-variant-numeric: tabular-nums; }
.plot { height: 110px; } .strip { margin-left: 58px; }
.plot svg, .strip svg { position: absolute; z-index: 1; left: 0; top: 0; width: 100%; height: 100%; }
i { font-style: normal; } i b { font-weight: 400; }
.x { position: absolute; top: 0; bottom: -4px; border-left: 1px solid var(--rule); }
.x b { position: absolute; top: 100%; transform: translateX(-50%); }
.y { position: absolute; left: -4px; right: 0; border-top: 1px solid var(--rule); }
.y b { position: absolute; right: 100%; padding-right: 3px; transform: translateY(-50%); }
.lane { position: absolute; left: 0; right: 0; height: 12px; background: var(--lane); } .lane.odd { background: var(--odd); }
.lane b { position: absolute; right: 100%; padding-right: 5px; white-space: nowrap; }
.bar { display: flex; align-items: center; font-size: 12px; line-height: 15px; margin-bottom: 2px; font-variant-numeric: tabular-nums; }
.bar b { flex: 0 0 72px; font-weight: 400; white-space: nowrap; color: var(--soft); } .bar svg { flex: 1; height: 14px; min-width: 0; margin-right: 16px; }
.bar p { flex: 1; display: flex; justify-content: space-between; max-width: none; margin: 0 16px 0 0; font-size: 11px; }
.bar p i { width: 0; display: flex; justify-content: center; white-space: nowrap; }
svg { display: block; }
svg path { vector-effect: non-scaling-stroke; } svg rect { shape-rendering: crispEdges; }
.strip rect[width="4"] { stroke: var(--paper); stroke-width: .7; vector-effect: non-scaling-stroke; }
.act { fill: var(--act); } .rd { fill: var(--rd); } .wr { fill: var(--wr); } .pre { fill: var(--pre); } .prea { fill: var(--prea); } .ref { fill: var(--ref); fill-opacity: .7; }
.band { fill: var(--band); fill-opacity: .38; }
.bus { fill: var(--rd); } .open { fill: var(--pre); } .pale { fill-opacity: .3; }
.line { fill: none; stroke-width: 1.4; } .line.bus { stroke: var(--rd); } .line.hits { stroke: var(--wr); } .line.open { stroke: var(--pre); } .line.tail { stroke: var(--act); }
.credit { fill: var(--wr); } .window { fill: var(--stall); } .memory { fill: var(--memory); } .width { fill: var(--pre); } .end { fill: var(--none); }
@media (max-width: 700px) { main { padding: 12px; } th, td { padding: 3px 7px; } }
@media print {
  :root { color-scheme: light; --paper: #fff; --ink: #000; --soft: #333; --rule: #ccc; --lane: #f3f3f3; --odd: #e9e9e9; --rd: #0072b2; --ref: #000; --band: #56b4e9; --none: #bdbdbd; }
  body { font-size: 10pt; } main { max-width: none; padding: 0; }
  * { -webkit-print-color-adjust: exact; print-color-adjust: exact; }
  nav { display: none; } .wide { overflow: visible; } table { font-size: 8.5pt; } th, td { padding: 2px 5px; }
  figure, .strip, .bar, tr { break-inside: avoid; } h2, h3, p, .legend { break-after: avoid; } .bar p { break-after: auto; } .scale { break-before: avoid; }
}
"#;

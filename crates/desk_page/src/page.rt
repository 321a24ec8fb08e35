//! The page, as `pages/desk.html` has it. `checks/desk_page --write` wrote this.

/// The page: HTML in UTF-8.
pub const PAGE: &str = r###"<!doctype html>
<html lang="en">
<head>
<meta charset="utf-8">
<meta http-equiv="Content-Security-Policy" content="default-src 'none'; script-src 'sha256-yN9QfX6on/BYqtDbMHmhyDR+0nngbKdrHA5kubONGOQ='; style-src 'sha256-X9lPgP4VOPKBEBc6Ofuaympk0JfAecBNaqJJfgsup20='; connect-src 'self'; base-uri 'none'; form-action 'none'; require-trusted-types-for 'script'; trusted-types 'none'">
<meta name="viewport" content="width=device-width, initial-scale=1">
<meta name="referrer" content="no-referrer">
<meta name="color-scheme" content="light dark">
<title>Desk</title>
<style>
:root {
  color-scheme: light dark;
  --page: #eef0f3; --card: #ffffff; --ink: #12161c; --soft: #4a5462; --line: #cdd3db; --field: #7c8694;
  --link: #0b4fc4; --on-link: #ffffff; --hover: #e3e8ef;
  --good: #08713a; --bad: #b3211a; --warn: #8a5200; --calm: #0b4fc4; --off: #5a6472;
  --good-wash: #e4f4ea; --bad-wash: #fdeceb; --warn-wash: #fdf3e0; --calm-wash: #e8effc; --off-wash: #eceff3;
  --filled: #08713a; --busted: #b3211a; --cancelled: #5a6472; --withdrawn: #6a3fc0; --open: #0b4fc4;
}
@media (prefers-color-scheme: dark) {
  :root {
    --page: #0d1015; --card: #171b22; --ink: #eceff4; --soft: #aeb7c4; --line: #313945; --field: #7f8a99;
    --link: #8db7ff; --on-link: #0a1526; --hover: #232a34;
    --good: #56cf92; --bad: #ff9188; --warn: #f3bb55; --calm: #8db7ff; --off: #a3adba;
    --good-wash: #12291e; --bad-wash: #341917; --warn-wash: #2f2410; --calm-wash: #15233a; --off-wash: #222933;
    --filled: #3fbf7f; --busted: #ff7f75; --cancelled: #8b96a5; --withdrawn: #b7a0ff; --open: #8db7ff;
  }
}
* { box-sizing: border-box; }
[hidden] { display: none !important; }
html {
  font: 106.25%/1.45 system-ui, "Segoe UI", "Helvetica Neue", "DejaVu Sans", sans-serif; scroll-padding: 9.5rem 0 2rem;
}
body { margin: 0; background: var(--page); color: var(--ink); font-variant-numeric: tabular-nums; }
h1, h2, h3, p, dl, dd, ul, ol { margin: 0; padding: 0; }
ul, ol { list-style: none; }
h1 { font-size: 1.35rem; line-height: 1.15; }
#environment { color: var(--warn); }
.real #environment { color: var(--bad); }
h1 small { display: block; font-size: .8rem; font-weight: 400; color: var(--soft); }
h2 { font-size: 1.15rem; }
h3 { font-size: 1rem; }
:focus-visible { outline: 3px solid var(--link); outline-offset: 2px; border-radius: 4px; }
.unseen { position: absolute; width: 1px; height: 1px; overflow: hidden; clip-path: inset(50%); white-space: nowrap; }
.skip {
  position: fixed; left: 1rem; top: -6rem; z-index: 9; background: var(--card); color: var(--link);
  padding: .6rem 1rem;
}
.skip:focus { top: .5rem; }

button, select, input {
  font: inherit; color: inherit; background: var(--card); border: 1px solid var(--field); border-radius: 6px;
  min-height: 2.6rem; padding: .3rem .7rem;
}
button { cursor: pointer; font-weight: 600; }
button:hover { background: var(--hover); }
button:disabled { cursor: default; color: var(--soft); border-style: dashed; }
button.main { background: var(--link); border-color: var(--link); color: var(--on-link); }
button.main:hover { text-decoration: underline; }
button.main:disabled {
  background: var(--off-wash); border-color: var(--field); color: var(--soft); text-decoration: none;
}
input[type=checkbox] {
  min-height: 0; width: 1.15rem; height: 1.15rem; accent-color: var(--link); vertical-align: -.2rem;
}
[aria-invalid=true] { border: 2px solid var(--bad); }

header { position: sticky; top: 0; z-index: 2; background: var(--card); border-bottom: 1px solid var(--line); }
.test { border-top: 4px solid var(--warn); }
.real { border-top: 4px solid var(--bad); }
.line { display: flex; flex-wrap: wrap; align-items: center; gap: .5rem 1.5rem; padding: .6rem 1.25rem; }
#standing { display: flex; align-items: center; gap: .5rem; font-weight: 600; flex: 1 1 12rem; }
#sums { display: flex; flex-wrap: wrap; gap: .2rem 1.75rem; }
#sums div { text-align: right; }
#sums dt { color: var(--soft); font-size: .85rem; }
#sums dd { font-size: 1.35rem; font-weight: 650; line-height: 1.15; }
#banner, #alarm { display: flex; gap: .7rem; align-items: center; padding: .7rem 1.25rem; font-weight: 600; }
#alarm a { color: inherit; }

.lamp { width: 1.45rem; height: 1.45rem; flex: none; fill: currentColor; fill-rule: evenodd; }
.small { width: 1.05rem; height: 1.05rem; }
.good { color: var(--good); } .bad { color: var(--bad); } .warn { color: var(--warn); }
.calm { color: var(--calm); } .off { color: var(--off); }
.wash.good { background: var(--good-wash); } .wash.bad { background: var(--bad-wash); }
.wash.warn { background: var(--warn-wash); } .wash.calm { background: var(--calm-wash); }
.wash.off { background: var(--off-wash); }

/* What isn't heard any more has no colour of its own, so that nothing old looks live. */
.stale .heard {
  --ink: var(--soft); --good: var(--off); --bad: var(--off); --warn: var(--off); --calm: var(--off);
  --filled: var(--off); --busted: var(--off); --cancelled: var(--off); --withdrawn: var(--off); --open: var(--off);
  color: var(--ink);
}

main { display: grid; gap: 1.25rem; padding: 1.25rem; max-width: 120rem; margin: 0 auto; }
section { min-width: 0; }
.card { background: var(--card); border: 1px solid var(--line); border-radius: 10px; padding: 1rem 1.1rem; }
.top {
  display: flex; flex-wrap: wrap; align-items: baseline; justify-content: space-between; gap: .3rem 1.5rem;
  margin-bottom: .6rem;
}
.note { color: var(--soft); font-size: .9rem; }

#lamps { display: grid; grid-template-columns: repeat(auto-fill, minmax(9.75rem, 1fr)); gap: .5rem; }
.venue { padding: 0; border-left: 5px solid currentColor; overflow: hidden; }
.venue.opened { grid-column: 1 / -1; }
.chip {
  display: flex; flex-wrap: wrap; gap: 0 .4rem; align-items: center; align-content: start; width: 100%; height: 100%;
  padding: .4rem .45rem; border: 0; border-radius: 0; background: none; color: inherit; text-align: left;
}
.chip:focus-visible { outline-offset: -3px; }
.chip .name { color: var(--ink); overflow-wrap: anywhere; }
.chip .lamp { width: 1.2rem; height: 1.2rem; }
.chip .state { font-size: .85rem; margin-left: auto; }
.chip .why {
  flex: 0 0 100%; font-size: .85rem; font-weight: 400; color: var(--ink); white-space: nowrap; overflow: hidden;
  text-overflow: ellipsis;
}
.opened .why { white-space: normal; overflow-wrap: anywhere; }
.more { padding: 0 .7rem .6rem; color: var(--ink); }
.facts { display: flex; flex-wrap: wrap; gap: .35rem 1.5rem; }
.facts dt { color: var(--soft); white-space: nowrap; font-size: .8rem; line-height: 1.2; }
.facts dd { font-weight: 600; white-space: nowrap; }
.facts .heed { color: var(--warn); }
.facts .heed::before { content: "! "; }
.facts .alarm { color: var(--bad); }

.roll { position: relative; overflow: auto; max-height: min(42rem, 75vh); scroll-padding: 3.5rem 0 .5rem; }
table { border-collapse: collapse; width: 100%; }
th, td { padding: .32rem .4rem; text-align: right; white-space: nowrap; }
thead th {
  position: sticky; top: 0; z-index: 1; background: var(--card); box-shadow: inset 0 -2px var(--line);
  color: var(--soft); font-size: .85rem; font-weight: 600; vertical-align: bottom; white-space: normal;
}
tbody th { font-weight: 600; }
thead th:first-child, tbody th { text-align: left; }
tbody + tbody { border-top: 1px solid var(--line); }
td.bar-cell, th.bar-cell { width: 40%; min-width: 6rem; text-align: left; }
td.price { white-space: normal; }
td.none { color: var(--soft); font-weight: 400; }
td { font-weight: 600; }
tr.leg th { padding-left: 1.4rem; font-weight: 500; line-height: 1.25; }
tbody small { font-size: .85rem; font-weight: 400; }
tbody small:not(.bad) { color: var(--soft); }
tbody .bad { font-weight: 600; }
td small, tr.leg small, .came { display: block; }
.came { padding-left: 1.7rem; }
td small:empty, .came:empty { display: none; }
tr.leg .parts { display: none; }
tr.leg { background: var(--off-wash); }
button.opens {
  min-height: 2rem; padding: 0 .7rem 0 .4rem; border-color: transparent; background: none; color: var(--link);
  text-align: left;
}
button.opens::before { content: "\25B8"; display: inline-block; width: 1.2rem; text-align: center; }
button.opens[aria-expanded=true]::before { content: "\25BE"; }
button.opens:hover { background: var(--hover); }
.bar { display: flex; gap: 2px; height: 1.15rem; }
.bar span { min-width: 4px; border-radius: 2px; }
.leg .bar { height: .8rem; }
.swatch { display: block; width: 1.5rem; height: .7rem; border-radius: 2px; margin: 0 0 .2rem auto; }
.filled { background: var(--filled); }
.busted {
  background:
    repeating-linear-gradient(45deg, var(--card) 0 1.5px, transparent 1.5px 5px),
    repeating-linear-gradient(-45deg, var(--card) 0 1.5px, transparent 1.5px 5px), var(--busted);
}
.cancelled { background: repeating-linear-gradient(0deg, var(--cancelled) 0 3px, var(--card) 3px 4.5px); }
.withdrawn { background: repeating-linear-gradient(-45deg, var(--withdrawn) 0 4px, var(--card) 4px 6px); }
.open { background: var(--card); border: 2px solid var(--open); }

.rail { display: grid; gap: 1.25rem; align-content: start; }
fieldset {
  position: relative; min-width: 0; border: 1px solid var(--line); border-radius: 8px; margin: 0 0 1rem;
  padding: .3rem .8rem .7rem;
}
legend { font-weight: 600; padding: 0 .3rem; }
.fields { display: grid; grid-template-columns: repeat(6, 1fr); gap: .5rem; }
.fields label { grid-column: span 2; font-size: .9rem; color: var(--soft); min-width: 0; }
.fields label.wide { grid-column: span 3; }
.fields select { padding: .3rem; }
.fields input, .fields select { width: 100%; display: block; color: var(--ink); font-size: 1rem; }
.fault { color: var(--bad); font-weight: 600; margin-top: .5rem; overflow-wrap: anywhere; }
.row { display: flex; flex-wrap: wrap; gap: .6rem; align-items: center; }
.row .main { margin-left: auto; }
.remove { position: absolute; right: .8rem; top: -1.6rem; min-height: 1.7rem; padding: 0 .6rem; font-size: .85rem; }
.plain { min-height: 2rem; font-size: .9rem; margin-top: .55rem; }
#answer { padding: .6rem .8rem; border-radius: 8px; margin-top: .8rem; font-weight: 600; overflow-wrap: anywhere; }
.list { position: relative; overflow: auto; max-height: 22rem; }
.list li { padding: .35rem 0; border-top: 1px solid var(--line); overflow-wrap: anywhere; }
.list li:first-child { border-top: 0; }
.list .note { display: block; }
.mark { color: var(--bad); font-weight: 700; }
#unbooked { border: 2px solid var(--bad); }
#unbooked .list { max-height: 9.5rem; }
#unbooked li { font-weight: 600; }
#unbooked .note { font-weight: 400; }
.tools { display: flex; flex-wrap: wrap; align-items: center; gap: .5rem 1.5rem; margin-bottom: .5rem; }
#find { min-height: 2.2rem; width: 16.5rem; max-width: 100%; }
#find::placeholder { color: var(--soft); opacity: 1; }

dialog {
  background: var(--card); color: var(--ink); border: 2px solid var(--field); border-radius: 12px;
  padding: 1.3rem 1.4rem;
  width: min(36rem, calc(100vw - 2rem)); box-shadow: 0 12px 48px rgb(0 0 0 / .35);
}
dialog::backdrop { background: rgb(0 0 0 / .5); }
dialog h2 { font-size: 1.25rem; margin-bottom: .7rem; }
dialog ul { margin: .2rem 0 .8rem; border: solid var(--line); border-width: 1px 0; }
dialog li { padding: .3rem 0; font-weight: 600; overflow-wrap: anywhere; }
dialog p { margin-bottom: .7rem; }
dialog .row { margin-top: 1.1rem; }
dialog input { width: 100%; display: block; margin-top: .3rem; }

@media (min-width: 88rem) {
  main { grid-template-columns: minmax(0, 1fr) 21.5rem; }
  #venues, #unbooked { grid-column: 1 / -1; }
}
@media (min-width: 48rem) and (max-width: 87.99rem) {
  .rail { grid-template-columns: minmax(0, 1fr) minmax(0, 1fr); }
  #hand-in { grid-row: span 2; }
}
@media (max-width: 56rem) {
  .spare { display: none; }
  tr.leg .parts { display: block; }
}
@media (max-width: 40rem) {
  header { position: static; }
  .line { padding: .6rem .75rem; }
  main { padding: .75rem; }
  html { scroll-padding: 1rem 0; }
  .card { padding: .7rem .6rem; }
  .venue { padding: 0; }
  h1 { order: -2; }
  #close { order: -1; margin-left: auto; }
  #sums { justify-content: space-between; width: 100%; }
  #sums dd { font-size: 1.1rem; }
  .bar-cell { display: none; }
  table { font-size: .95rem; }
  th, td { padding: .32rem .2rem; }
  tbody th { white-space: normal; overflow-wrap: anywhere; }
  tr.leg th { padding-left: .6rem; }
  button.opens { white-space: nowrap; padding: 0; }
  .order { display: inline-block; }
  .came { padding-left: 1.2rem; }
}
@media (forced-colors: active) {
  .lamp, .bar span, .swatch { forced-color-adjust: none; }
  .venue { border-left-color: CanvasText; }
}
</style>
</head>
<body>
<a class="skip" href="#venues">To the venues</a>
<a class="skip" href="#sweeps">To the sweeps</a>
<a class="skip" href="#hand-in">To a new sweep</a>

<header id="top">
  <div class="line">
    <h1><span id="desk-name">Desk</span> <b id="environment"></b> <small id="place"></small></h1>
    <p id="standing" role="status"></p>
    <dl id="sums" class="heard" aria-label="Shares of all the day's sweeps">
      <div><dt>Shares placed</dt><dd id="sum-placed">–</dd></div>
      <div><dt>Resolved</dt><dd id="sum-resolved">–</dd></div>
      <div><dt>Open</dt><dd id="sum-open">–</dd></div>
    </dl>
    <button id="close" type="button">Close the day…</button>
  </div>
  <div id="banner" role="alert" hidden></div>
  <p id="alarm" class="wash bad" role="alert" hidden></p>
</header>
<p id="news" class="unseen" role="log" aria-label="News"></p>
<noscript><p>This page needs its script: it reads the day from the desk that serves it.</p></noscript>

<main>
  <section id="venues" class="heard" aria-labelledby="venues-title" tabindex="-1">
    <div class="top"><h2 id="venues-title">Venues</h2><p id="venues-note" class="note"></p></div>
    <ul id="lamps"></ul>
  </section>

  <section id="unbooked" class="card heard" aria-labelledby="unbooked-title" tabindex="-1" hidden>
    <div class="top"><h2 id="unbooked-title">Unbooked reports</h2><p id="unbooked-note" class="note"></p></div>
    <p class="note">An exchange said this, and the desk's book didn't take it. Ask the exchange about each.</p>
    <div class="list" role="region" aria-labelledby="unbooked-title" tabindex="0"><ol></ol></div>
  </section>

  <section id="sweeps" class="card" aria-labelledby="sweeps-title" tabindex="-1">
    <div class="top"><h2 id="sweeps-title">Sweeps</h2><p id="sweeps-note" class="note"></p></div>
    <form id="finder" class="tools" role="search" autocomplete="off">
      <label>Find <input id="find" type="search" spellcheck="false" placeholder="number, reference, symbol"></label>
      <label><input id="only-open" type="checkbox"> Only sweeps with open shares</label>
      <p id="find-note" class="note" role="status"></p>
    </form>
    <div class="roll heard" role="region" aria-labelledby="sweeps-title" tabindex="0">
      <table id="table">
        <thead>
          <tr>
            <th scope="col">Sweep</th>
            <th scope="col" class="spare">Shares</th>
            <th scope="col" class="bar-cell">Where they are</th>
            <th scope="col"><span class="swatch filled"></span>Filled</th>
            <th scope="col" class="spare"><span class="swatch busted"></span>Busted</th>
            <th scope="col" class="spare"><span class="swatch cancelled"></span>Cancelled</th>
            <th scope="col" class="spare"><span class="swatch withdrawn"></span>Withdrawn</th>
            <th scope="col"><span class="swatch open"></span>Open</th>
            <th scope="col">Average price, dollars</th>
          </tr>
        </thead>
      </table>
    </div>
    <button id="older" type="button" class="plain" hidden>Show older sweeps</button>
  </section>

  <div class="rail">
    <section id="hand-in" class="card" aria-labelledby="hand-in-title" tabindex="-1">
      <div class="top"><h2 id="hand-in-title">New sweep</h2><p id="total" class="note"></p></div>
      <form id="form" novalidate autocomplete="off">
        <div id="legs"></div>
        <div class="row">
          <button id="add" type="button">Add a leg</button>
          <button id="send" type="submit" class="main">Hand in…</button>
        </div>
        <p id="answer" role="alert" hidden></p>
      </form>
    </section>

    <section class="card heard" aria-labelledby="executions-title">
      <div class="top"><h2 id="executions-title">Executions</h2><p id="executions-note" class="note"></p></div>
      <div class="list" role="region" aria-labelledby="executions-title" tabindex="0"><ol id="executions"></ol></div>
    </section>

    <section class="card" aria-labelledby="refused-title">
      <div class="top"><h2 id="refused-title">Refused</h2><p class="note">since this page was opened</p></div>
      <p id="nothing-refused" class="note">Nothing.</p>
      <div class="list" role="region" aria-labelledby="refused-title" tabindex="0"><ol id="refusals"></ol></div>
    </section>
  </div>
</main>

<dialog id="ask" aria-labelledby="ask-title">
  <h2 id="ask-title"></h2>
  <div id="ask-body"></div>
  <div class="row">
    <button id="ask-no" type="button">Go back</button>
    <button id="ask-yes" type="button" class="main"></button>
  </div>
</dialog>

<dialog id="token-ask" aria-labelledby="token-title">
  <form id="token-form" novalidate>
    <h2 id="token-title">The desk asks for its token</h2>
    <p id="token-why"></p>
    <label>Token <input id="token" type="password" autocomplete="off" spellcheck="false"></label>
    <div class="row">
      <button id="token-no" type="button">Go back</button>
      <button type="submit" class="main">Go on</button>
    </div>
  </form>
</dialog>

<script>
"use strict";

// A page in a frame of another's could be clicked on unseen.
if (window.top !== window.self) {
  document.body.textContent = "The desk's page isn't shown inside another page.";
  throw new Error("framed");
}

const WINDOW = 200;           // sweeps that are shown at first, and asked for at once
const MOST_EXECUTIONS = 100;  // that are shown, and of those that the book didn't take too
const LOOK_EVERY = 2000;      // ms between two readings of what no event tells
const STALE_AFTER = 6000;     // ms without a word of the desk
const FIND_AFTER = 300;       // ms behind the last key
const DRAWN_WITHIN = 250;     // ms, where no frame comes before
const ANSWER_WITHIN = 5000;   // ms
const MOST_LEGS = 32;
const MOST_REFUSALS = 50;
const PARTS = ["filled", "busted", "cancelled", "withdrawn", "open"];

// What the desk said last.
const venues = new Map();     // by name
const sweeps = new Map();     // by number
const legsOf = new Map();     // of the sweeps that are opened, by number
let closing = false;
let audit = null;             // how the day's audit ended, once it is closed
let run = null;               // which run of the program answers: its id
let desk = "Desk";            // its name
let environment = "";         // where it trades
let beganAnew = null;         // when another run was found to answer, and how the day before it had ended

// Each event has its place in time: what was asked for before an event and answered behind it is older than the event.
let time = 0;

// ---- Elements and texts. Whatever the desk says becomes text, and never markup.

const at = id => document.getElementById(id);

function make(tag, attributes, ...children) {
  const element = document.createElement(tag);
  for (const [name, value] of Object.entries(attributes || {})) element.setAttribute(name, value);
  element.append(...children);
  return element;
}

function setText(element, text) {
  if (element.textContent !== text) element.textContent = text;
}

function show(element, shown) {
  if (element.hidden === shown) element.hidden = !shown;
}

// A count in groups of three digits; one that is too great for a number of the language came as its digits.
function digits(count) {
  if (typeof count === "number") return count.toLocaleString("en-US");
  return /^\d+$/.test(count ?? "") ? BigInt(count).toLocaleString("en-US") : "–";
}

// Dollars of hundred-millionths of one, to the cent.
function money(e8) {
  const cents = (BigInt(e8) + 500000n) / 1000000n;
  return `${(cents / 100n).toLocaleString("en-US")}.${String(cents % 100n).padStart(2, "0")}`;
}

const PRICES = new Intl.NumberFormat("en-US", { minimumFractionDigits: 2, maximumFractionDigits: 4 });

const counted = (count, word) => `${digits(count)} ${word}${count === 1 ? "" : "s"}`;
const clock = moment => `${moment.toISOString().slice(11, 19)} UTC`;
const sentence = words => words.charAt(0).toUpperCase() + words.slice(1);

function lasting(seconds) {
  if (seconds < 10) return `${seconds.toFixed(1)} s`;
  if (seconds < 120) return `${Math.floor(seconds)} s`;
  return seconds < 7200 ? `${Math.floor(seconds / 60)} min` : `${Math.floor(seconds / 3600)} h`;
}

// Prices in ten-thousandths of a dollar, as the desk reads them; null where it is no price.
function tenThousandths(text) {
  const found = /^(\d*)(?:\.(\d*))?$/.exec(text);
  if (!found || !(found[1] || found[2]) || /[^0]/.test((found[2] || "").slice(4))) return null;
  const price = BigInt((found[1] || "") + (found[2] || "").slice(0, 4).padEnd(4, "0"));
  return price >= 1n && price <= 9999999999n ? price : null;
}

// ---- Lamps: a shape, a colour and a word for each state.

const DISC = "M12 1.5a10.5 10.5 0 1 0 0 21a10.5 10.5 0 1 0 0-21z";
const SHAPES = {
  disc: DISC,
  ring: `${DISC}M12 6a6 6 0 1 1 0 12a6 6 0 1 1 0-12z`,
  triangle: "M.5 3h23L12 23z",
  cross: "M5.5 2 12 8.5 18.5 2 22 5.5 15.5 12 22 18.5 18.5 22 12 15.5 5.5 22 2 18.5 8.5 12 2 5.5z",
  square: "M3 3h18v18H3z",
  half: `${DISC}M12 5a7 7 0 1 1 0 14z`,
  target: `${DISC}M12 5a7 7 0 1 1 0 14a7 7 0 1 1 0-14zM12 9a3 3 0 1 0 0 6a3 3 0 1 0 0-6z`,
  diamond: "M12 0 24 12 12 24 0 12z",
};

// In the order in which venues are shown.
const PHASES = {
  down: ["bad", "triangle"],
  unreachable: ["warn", "cross"],
  settling: ["warn", "target"],
  "logging on": ["warn", "half"],
  dialling: ["calm", "ring"],
  closing: ["off", "diamond"],
  closed: ["off", "square"],
  up: ["good", "disc"],
};
const look = phase => PHASES[phase] || ["warn", "ring"];

function lamp(shape, classes) {
  const svg = document.createElementNS("http://www.w3.org/2000/svg", "svg");
  svg.setAttribute("viewBox", "0 0 24 24");
  svg.setAttribute("class", `lamp ${classes}`);
  svg.setAttribute("aria-hidden", "true");
  const path = document.createElementNS("http://www.w3.org/2000/svg", "path");
  path.setAttribute("d", SHAPES[shape]);
  svg.append(path);
  return svg;
}

// ---- Venues.

const FACTS = ["In doubt", "Unbooked", "Waiting", "Heard", "Reconnects", "Failed dials", "Log lost"];
const HEEDED = ["In doubt", "Unbooked", "Log lost"];
const cards = new Map();

// A venue's state in a word. The desk says `dialled` until a venue was up, so the counts tell what is waited for: its
// first connection, its Logon, or its answer to a TestRequest.
function phaseOf({ state, connections, received }) {
  if (state === "up" && closing) return "closing";
  if (state !== "dialled") return state;
  return !connections ? "dialling" : received ? "settling" : "logging on";
}

const unbookedOf = venue => Object.values(venue.unbooked || {}).reduce((sum, count) => sum + count, 0);
const isExpected = phase => phase === "up" || closing && (phase === "closing" || phase === "closed");

// Venues in trouble come first, and those that are up and have something to be looked at behind them.
function rankOf(venue) {
  const phase = phaseOf(venue);
  const rank = Object.keys(PHASES).indexOf(phase);
  if (!isExpected(phase)) return rank;
  return (unbookedOf(venue) || venue.lost ? 100 : 200) + rank;
}

function makeCard(name) {
  const facts = FACTS.map(fact => make("div", null, make("dt", null, fact), make("dd")));
  const words = ["name", "state", "why"].map(kind => make("span", { class: kind }));
  const chip = make("button", { type: "button", class: "chip", "aria-expanded": "false" }, lamp("ring", ""), ...words);
  const more = make("div", { class: "more", hidden: "" }, make("dl", { class: "facts" }, ...facts));
  more.append(make("p", { class: "note" }));
  const card = make("li", { class: "venue card" }, make("h3", null, chip), more);
  card.dataset.venue = name;
  setText(card.querySelector(".name"), name);
  chip.addEventListener("click", () => {
    const isOpened = card.classList.toggle("opened");
    chip.setAttribute("aria-expanded", String(isOpened));
    show(more, isOpened);
  });
  cards.set(name, card);
  at("lamps").append(card);
  return card;
}

// Why a venue isn't up: our words, its own words where it said some, and the code of the ending.
function cause({ text, said, code }) {
  return [text, said].filter(Boolean).join(": ") + (code ? ` (${code})` : "");
}

function heardOf(venue) {
  if (venue.heard_ms_ago === undefined || venue.heard_ms_ago === null) return "–";
  return lasting((venue.heard_ms_ago + Date.now() - venue.read) / 1000);
}

function whyOf(venue) {
  const phase = phaseOf(venue);
  const why = cause(venue);
  const next = venue.next_s ?? venue.seconds;
  if (phase === "unreachable" && next !== undefined) {
    const left = Math.max(0, Math.ceil(next - (Date.now() - venue.read) / 1000));
    return `${sentence(why || "no answer")}. Next try in ${left} s`;
  }
  if (why) return sentence(why);
  if (phase === "logging on") return "Connected, and no Logon came yet";
  if (phase === "settling") return `No answer to our TestRequest; heard ${heardOf(venue)} ago`;
  if (venue.ended) return `Last ended ${clock(venue.ended.moment)}: ${venue.ended.why}`;
  return "";
}

// What is to be looked at of a venue, however it stands, and why it isn't up.
function remarksOf(venue) {
  const unbooked = unbookedOf(venue) && counted(unbookedOf(venue), "unbooked report");
  const lost = venue.lost && `${counted(venue.lost, "log line")} lost`;
  return [unbooked, lost, whyOf(venue)].filter(Boolean).join(". ");
}

function drawVenue(venue) {
  const card = cards.get(venue.venue) || makeCard(venue.venue);
  const phase = phaseOf(venue);
  const [colour, shape] = look(phase);
  for (const name of ["good", "bad", "warn", "calm", "off"]) card.classList.toggle(name, name === colour);
  card.dataset.state = phase;
  card.querySelector("path").setAttribute("d", SHAPES[shape]);
  const remarks = remarksOf(venue);
  setText(card.querySelector(".state"), isStale() ? `was ${phase}` : phase);
  setText(card.querySelector(".why"), remarks);
  card.querySelector(".why").title = remarks;
  show(card.querySelector(".why"), remarks !== "");
  const reconnects = venue.connections === undefined ? undefined : Math.max(0, venue.connections - 1);
  const unbooked = venue.unbooked && unbookedOf(venue);
  const facts = [venue.doubt, unbooked, venue.unsent, heardOf(venue), reconnects, venue.refused_dials, venue.lost];
  const places = card.querySelectorAll("dd");
  facts.forEach((fact, i) => {
    setText(places[i], FACTS[i] === "Heard" ? fact : digits(fact));
    places[i].classList.toggle("heed", HEEDED.includes(FACTS[i]) && fact > 0);
    places[i].classList.toggle("alarm", FACTS[i] === "Unbooked" && fact > 0);
  });
  setText(card.querySelector(".note"), `Messages: ${digits(venue.sent)} sent, ${digits(venue.received)} received`);
}

// Puts the lamps in order, but not under a hand: one that moves would lose the focus.
function orderVenues() {
  if (at("lamps").contains(document.activeElement)) return;
  const names = [...venues.values()].sort((a, b) => rankOf(a) - rankOf(b)).map(venue => venue.venue);
  names.forEach((name, i) => {
    const place = at("lamps").children[i];
    if (place !== cards.get(name)) at("lamps").insertBefore(cards.get(name), place);
  });
}

function drawVenues() {
  for (const venue of venues.values()) drawVenue(venue);
  orderVenues();
  const phases = [...venues.values()].map(phaseOf);
  const told = Object.keys(PHASES).map(phase => [phases.filter(one => one === phase).length, phase]);
  setText(at("venues-note"), told.filter(([count]) => count).map(([count, phase]) => `${count} ${phase}`).join(", "));
  for (const choice of document.querySelectorAll("select.venue-choice")) fillVenues(choice);
  const amiss = audit ? 0 : phases.filter(phase => !isExpected(phase)).length;
  const unbooked = expectedUnbooked();
  const words = [
    !audit && (isStale() ? "No answer" : lostAt && "Events lost"),
    unbooked > 0 && `${digits(unbooked)} unbooked`,
    amiss > 0 && `${amiss} of ${phases.length} not up`,
    [environment, desk, location.host].filter(Boolean).join(" "),
  ];
  document.title = words.filter(Boolean).join(" · ");
}

const NO_CAUSE = { code: undefined, text: undefined, said: undefined, next_s: undefined, seconds: undefined };

// An event tells what changed, and counts stay as they were; a cause is that of the state it came with.
function takeVenue(said) {
  const before = venues.get(said.venue);
  const venue = { ...before, ...NO_CAUSE, ...said, read: Date.now() };
  if (cause(venue) && venue.state !== "unreachable" && venue.ended?.why !== cause(venue)) {
    venue.ended = { why: cause(venue), moment: new Date() };
  }
  if (said.heard_ms_ago === undefined && before) venue.heard_ms_ago = before.heard_ms_ago + venue.read - before.read;
  venues.set(said.venue, venue);
  if (before && phaseOf(before) !== phaseOf(venue)) tell(`${venue.venue} ${phaseOf(venue)}. ${whyOf(venue)}`);
}

function tell(words) {
  at("news").append(make("span", null, `${words} `));
  while (at("news").childElementCount > 20) at("news").firstChild.remove();
}

// ---- Sweeps.

const bodies = new Map();     // a part of the table for each sweep that is shown, by its number
const terms = new Map();      // what a sweep trades, by its number; it never changes
const dirty = new Set();
const inView = new Set();
let shown = WINDOW;
let readBehind = null;        // all sweeps behind this number are here, and are kept
let openBehind = null;        // and behind this one those with open shares, where they alone are shown
let newestRead = 0;           // the newest when the page began to follow
let dayOpen = 0;              // open shares of the day
let search = null;            // what is looked for, and which sweeps the desk found
let drawing = false;

// Draws what changed in the next frame; a tab that is hidden has no frames, and its title is to say what happened.
function draw() {
  if (drawing) return;
  drawing = true;
  const late = setTimeout(drawNow, DRAWN_WITHIN);
  const frame = requestAnimationFrame(drawNow);

  function drawNow() {
    clearTimeout(late);
    cancelAnimationFrame(frame);
    drawing = false;
    drawSweeps();
    drawVenues();
    drawExecutions();
  }
}

function makeBar() {
  return make("div", { class: "bar", "aria-hidden": "true" }, ...PARTS.map(part => make("span", { class: part })));
}

function drawBar(bar, split) {
  PARTS.forEach((part, i) => {
    const share = Number(split[part] || 0);
    show(bar.children[i], share > 0);
    bar.children[i].style.flexGrow = String(share);
  });
}

function makeRow(head, kind) {
  const cells = PARTS.map(part => make("td", part === "filled" || part === "open" ? null : { class: "spare" }));
  const bar = make("td", { class: "bar-cell" }, makeBar());
  const price = make("td", { class: "price" }, make("span"), make("small"), make("small", { class: "bad" }));
  return make("tr", kind, head, make("td", { class: "spare" }), bar, ...cells, price);
}

// The average price to four decimals, the dollars, and the shares whose price isn't known and those that are disputed.
// The title has the whole average.
function drawPrice(cell, split) {
  const doubts = [
    split.price_unknown > 0 && `${digits(split.price_unknown)} at an unknown price`,
    split.disputed > 0 && `${digits(split.disputed)} disputed`,
  ];
  const words = [split.average ? PRICES.format(split.average) : "–", split.average ? `$${money(split.paid_e8)}` : "",
    doubts.filter(Boolean).join(", ")];
  words.forEach((text, i) => setText(cell.children[i], text));
  cell.title = split.average ?? "";
  cell.classList.toggle("none", !split.average);
}

function drawRow(row, shares, split) {
  setText(row.cells[1], digits(shares));
  drawBar(row.querySelector(".bar"), split);
  PARTS.forEach((part, i) => {
    const cell = row.cells[i + 3];
    setText(cell, digits(split[part]));
    cell.classList.toggle("none", !split[part]);
  });
  drawPrice(row.cells[PARTS.length + 3], split);
}

const views = new IntersectionObserver(entries => {
  for (const { target, isIntersecting } of entries) {
    if (isIntersecting) inView.add(numberOf(target)); else inView.delete(numberOf(target));
  }
  readTerms();
});
const numberOf = body => Number(body.id.slice(6));

function makeBody(number) {
  const words = [make("span", { class: "unseen" }, "Sweep "), String(number)];
  const button = make("button", { type: "button", class: "opens", "aria-expanded": "false" }, ...words);
  button.addEventListener("click", () => turn(number));
  const head = make("th", { scope: "row" }, button, make("span", { class: "order" }), make("small", { class: "came" }));
  const body = make("tbody", { id: `sweep-${number}` }, makeRow(head, {}));
  bodies.set(number, body);
  dirty.add(number);
  views.observe(body);
  return body;
}

function dropBody(number) {
  views.unobserve(bodies.get(number));
  bodies.get(number).remove();
  bodies.delete(number);
  inView.delete(number);
}

// What a sweep trades, as `buy IBM` or `3 symbols`.
function termsOf(legs) {
  const symbols = new Set(legs.map(leg => leg.symbol));
  const sides = [...new Set(legs.map(leg => leg.side))].sort().join(" and ");
  return { symbols, words: symbols.size === 1 ? `${sides} ${legs[0].symbol}` : `${symbols.size} symbols` };
}

function makeLegRow(leg) {
  const small = make("small", null, `${leg.leg}, ${leg.state}`);
  const parts = PARTS.filter(part => leg[part]).map(part => `${digits(leg[part])} ${part}`).join(", ");
  const words = `${leg.venue} ${leg.side} ${leg.symbol} at ${leg.price}`;
  const more = make("small", { class: "parts" }, `${digits(leg.shares)} shares: ${parts}`);
  return makeRow(make("th", { scope: "row" }, words, small, more), { class: "leg" });
}

function drawLegs(number) {
  const legs = legsOf.get(number);
  const body = bodies.get(number);
  body.querySelector("button").setAttribute("aria-expanded", String(legs !== undefined));
  const rows = (legs || []).map(leg => {
    const row = makeLegRow(leg);
    drawRow(row, leg.shares, leg);
    return row;
  });
  while (body.rows.length > 1) body.rows[1].remove();
  body.append(...rows);
}

function drawSweep(number) {
  const sweep = sweeps.get(number);
  const row = bodies.get(number).rows[0];
  drawRow(row, sweep.legs, sweep);
  setText(row.querySelector(".order"), terms.get(number)?.words ?? "");
  setText(row.querySelector(".came"), sweep.came ? clock(sweep.came) : "");
  drawLegs(number);
}

const showsOpen = () => at("only-open").checked;
const isHeld = number => bodies.get(number)?.contains(document.activeElement);

// Whether the table is to have a sweep. The one with the focus stays.
function isListed(number) {
  if (isHeld(number) || search?.numbers.has(number)) return true;
  if (search && !terms.get(number)?.symbols.has(search.symbol)) return false;
  return !showsOpen() || sweeps.get(number).open !== 0;
}

// Lets go of the oldest sweeps that aren't shown any more, but of none that is being looked at.
function trim() {
  if (readBehind === null) return;
  if (newest() - readBehind > shown) readBehind = newest() - shown;
  if (!showsOpen()) openBehind = readBehind;
  for (const [number, { open }] of sweeps) {
    const isKept = number > readBehind || legsOf.has(number) || search?.numbers.has(number) || isHeld(number);
    if (isKept || showsOpen() && open !== 0) continue;
    sweeps.delete(number);
    terms.delete(number);
  }
}

const greatest = numbers => numbers.reduce((most, number) => Math.max(most, number), 0);
const newest = () => greatest([...sweeps.keys()]);

// Puts the sweeps into the table, by falling number.
function placeBodies(numbers) {
  const wanted = new Set(numbers);
  for (const number of [...bodies.keys()]) if (!wanted.has(number)) dropBody(number);
  let next = at("table").tBodies[0] ?? null;
  for (const number of numbers) {
    const body = bodies.get(number);
    if (body && body === next) next = next.nextElementSibling;
    else at("table").insertBefore(body ?? makeBody(number), next);
  }
}

function drawSweeps() {
  trim();
  const listed = [...sweeps.keys()].filter(isListed).sort((a, b) => b - a);
  placeBodies(listed.slice(0, shown));
  for (const number of dirty) if (bodies.has(number)) drawSweep(number);
  dirty.clear();
  setText(at("sweeps-note"), countWords(listed.length));
  setText(at("find-note"), search ? findWords() : "");
  show(at("older"), listed.length > shown || readBehind > 0 && (search ? search.symbol !== null : !showsOpen()));
  setText(at("older"), search ? `Look at ${WINDOW} older sweeps` : "Show older sweeps");
  seekOpen();
  readTerms();
}

const ofDay = () => readBehind > 0 ? `the ${digits(newest() - readBehind)} newest of ${digits(newest())} sweeps`
  : `all ${counted(newest(), "sweep")} of the day`;
const shareSum = () => [...sweeps.values()].reduce((sum, { open }) => sum + open, 0);
const allOpenFound = () => openBehind === 0 || shareSum() >= dayOpen;

// What the table has, and of how many.
function countWords(count) {
  const cut = count > shown ? `, of which the ${digits(shown)} newest are shown` : "";
  if (newest() === 0) return "None yet";
  if (search) return `${counted(count, "sweep")} found${cut}`;
  if (!showsOpen()) return sentence(ofDay());
  const found = `${counted(count, "sweep")} with open shares`;
  return allOpenFound() ? `${found}, all of the day's${cut}` : `${found} so far; older ones are being read`;
}

// Reads older sweeps until all that is open is found: the desk says how many shares that is.
const seekOpen = alone(async () => {
  while (showsOpen() && openBehind !== null && !allOpenFound()) {
    const behind = Math.max(0, openBehind - WINDOW);
    await readSweeps(behind, openBehind);
    openBehind = behind;
    draw();
  }
});

// Reads what the sweeps trade that are in view; where a symbol is looked for, of all that are here.
const readTerms = alone(async () => {
  for (let number; (number = greatest(unread())) > 0;) {
    const { legs } = await ask(`/api/sweeps/${number}`);
    terms.set(number, termsOf(legs));
    dirty.add(number);
    draw();
  }
});

function unread() {
  const asked = search?.symbol ? [...sweeps.keys()] : [...inView];
  return asked.filter(number => sweeps.has(number) && !terms.has(number));
}

// ---- Looking for a sweep. The desk is asked for a number and a reference; for a symbol it can't be.

let finding = 0;

async function find() {
  clearTimeout(finding);
  const text = at("find").value.trim();
  const upper = text.toUpperCase();
  const symbol = WANTED.symbol[0](upper) ? upper : null;
  const mine = search = text === "" ? null : { symbol, numbers: new Set(), said: "Asking the desk…" };
  draw();
  if (mine === null) return;
  try {
    const said = [/^[1-9]\d{0,14}$/.test(text) && await findNumber(mine, Number(text)),
      /^[!-~]{1,64}$/.test(text) && await findReference(mine, text)];
    mine.said = said.filter(Boolean).join(" ") || "That is no number, reference or symbol.";
  } catch (fault) {
    mine.said = fault.status ? `${fault.message}.` : "The desk doesn't answer.";
    if (!fault.status) again(stream, fault);
  }
  draw();
}

async function findNumber(mine, number) {
  await readSweeps(number - 1, number);
  if (!sweeps.has(number)) return `The desk has no sweep ${digits(number)}.`;
  mine.numbers.add(number);
  return `Sweep ${digits(number)} is there.`;
}

async function findReference(mine, reference) {
  const number = await placedUnder(reference);
  if (!number) return `The desk has no reference ${reference}.`;
  mine.numbers.add(number);
  await readSweeps(number - 1, number);
  return `The reference ${reference} is that of sweep ${digits(number)}.`;
}

function findWords() {
  if (search.symbol === null) return search.said;
  const looked = unread().length > 0 ? "not all of them are looked at yet" : "no others are looked at";
  return `${search.said} The symbol is looked for in ${ofDay()}; ${looked}.`;
}

function takeSweep(sweep) {
  keep(sweep, time);
}

// What was asked for at a time, and doesn't undo what events told since.
function takeSweepOf(sweep, asked) {
  if ((sweeps.get(sweep.sweep)?.time ?? -1) <= asked) keep(sweep, asked);
}

// Keeps a sweep, and when it came if it is new.
function keep(sweep, told) {
  const number = sweep.sweep;
  const isNew = following && number > newestRead && number > readBehind;
  const came = sweeps.has(number) ? sweeps.get(number).came : isNew ? new Date() : null;
  sweeps.set(number, { ...sweep, time: told, came });
  dirty.add(number);
}

async function turn(number) {
  if (legsOf.has(number)) {
    legsOf.delete(number);
    drawLegs(number);
    return;
  }
  legsOf.set(number, []);
  await readLegs(number);
}

const reading = new Set();

// Reads the legs of a sweep, once more where an event came meanwhile.
async function readLegs(number) {
  if (reading.has(number)) return;
  reading.add(number);
  try {
    let asked;
    do {
      asked = sweeps.get(number)?.time;
      const { legs } = await ask(`/api/sweeps/${number}`);
      terms.set(number, termsOf(legs));
      if (!legsOf.has(number)) return;
      legsOf.set(number, legs);
      dirty.add(number);
      draw();
    } while (sweeps.get(number)?.time !== asked);
  } catch (fault) {
    again(stream, fault);
  } finally {
    reading.delete(number);
  }
}

function takeDay(day) {
  for (const part of ["placed", "resolved", "open"]) {
    if (day?.[part] !== undefined) setText(at(`sum-${part}`), digits(day[part]));
  }
  dayOpen = day?.open ?? dayOpen;
}

// ---- Executions, and those that the book didn't take.

const executions = new Map(); // the newest, by number
const unbooked = new Map();   // what the book didn't take, by number
let lastExecution = 0;        // all of the executions up to this one,
let lookedBehind = 0;         // and behind this one, were looked at

function takeExecution(said) {
  if (said.execution === lastExecution + 1) lastExecution = said.execution;
  if (said.unbooked && !unbooked.has(said.execution)) {
    unbooked.set(said.execution, said);
    if (following) tell(`Unbooked: ${executionWords(said)}`);
  }
  executions.set(said.execution, said);
  if (executions.size > 2 * MOST_EXECUTIONS) dropOldExecutions();
}

const byNumber = map => [...map.keys()].sort((a, b) => b - a);

function dropOldExecutions() {
  for (const number of byNumber(executions).slice(MOST_EXECUTIONS)) executions.delete(number);
}

// Reads the executions behind the last that is here; where there are many, the newest of them.
async function readExecutions() {
  for (;;) {
    const { executions: found, last } = await ask(`/api/executions?after=${lastExecution}&most=${WINDOW}`);
    if (last - lastExecution > 2 * WINDOW) {
      lastExecution = lookedBehind = last - WINDOW;
      continue;
    }
    found.forEach(takeExecution);
    if (found.length === 0) return;
  }
}

const expectedUnbooked = () => [...venues.values()].reduce((sum, venue) => sum + unbookedOf(venue), 0);

// Reads older executions until all that the book didn't take are found: the venues say how many those are.
const seekUnbooked = alone(async () => {
  while (lookedBehind > 0 && unbooked.size < expectedUnbooked()) {
    const behind = Math.max(0, lookedBehind - WINDOW);
    const { executions: found } = await ask(`/api/executions?after=${behind}&most=${lookedBehind - behind}`);
    for (const said of found) if (said.unbooked) unbooked.set(said.execution, said);
    lookedBehind = behind;
    draw();
  }
});

function executionWords({ venue, leg, kind, shares, price, of, fault, unbooked }) {
  const words = { fill: `fill ${digits(shares)} at ${price}`, bust: `bust of ${of}`, unread: fault };
  return [venue, leg, words[kind] ?? kind].filter(Boolean).join(" ") + (unbooked ? `: ${unbooked}` : "");
}

// What else the exchange's message says.
function executionNote(said) {
  const tags = [11, 150, 32, 31].filter(tag => said[`tag_${tag}`]).map(tag => `${tag}=${said[`tag_${tag}`]}`);
  const order = said.order && `order ${said.order}`;
  const reason = said.reason && `reason ${said.reason_tag}=${said.reason}`;
  const words = [`#${digits(said.execution)}`, said.exec, order, said.time, reason, said.text, ...tags];
  return words.filter(Boolean).join(" · ");
}

function drawList(list, map) {
  const numbers = byNumber(map).slice(0, MOST_EXECUTIONS);
  if (list.dataset.shown === numbers.join()) return;
  list.dataset.shown = numbers.join();
  list.replaceChildren(...numbers.map(number => {
    const said = map.get(number);
    const mark = said.unbooked ? [make("span", { class: "mark", "aria-hidden": "true" }, "! ")] : [];
    return make("li", null, ...mark, executionWords(said), make("span", { class: "note" }, executionNote(said)));
  }));
}

function drawExecutions() {
  const kept = Math.min(executions.size, MOST_EXECUTIONS);
  const isCut = kept < lastExecution;
  const words = isCut ? `The ${digits(kept)} newest of ${digits(lastExecution)}` : `${digits(kept)} in all`;
  drawList(at("executions"), executions);
  setText(at("executions-note"), kept === 0 ? "None yet" : words);
  const all = Math.max(unbooked.size, expectedUnbooked());
  const some = Math.min(unbooked.size, MOST_EXECUTIONS);
  drawList(at("unbooked").querySelector("ol"), unbooked);
  setText(at("unbooked-note"), some === all ? `${digits(all)} in all` : `${digits(some)} of ${digits(all)}`);
  show(at("unbooked"), all > 0);
  drawAlarm(all);
  seekUnbooked();
}

function drawAlarm(count) {
  show(at("alarm"), count > 0);
  if (at("alarm").dataset.count === String(count)) return;
  at("alarm").dataset.count = String(count);
  const words = `${counted(count, "report")} that the book didn't take`;
  at("alarm").replaceChildren(lamp("triangle", "small bad"), make("a", { href: "#unbooked" }, words));
}

// ---- Reading the desk.

function parse(text) {
  return JSON.parse(text, (key, value, context) =>
    typeof value === "number" && !Number.isSafeInteger(value) && context ? context.source : value);
}

// A reading that runs one at a time, and not while the desk is silent; a fault of it is one of the desk.
function alone(read) {
  let isReading = false;
  return async () => {
    if (isReading || silentAt) return;
    isReading = true;
    try {
      await read();
    } catch (fault) {
      again(stream, fault);
    } finally {
      isReading = false;
    }
  };
}

// What is read across two runs of the program is thrown away.
const ANOTHER_RUN = new Error("another run of the program answers");

// Whether an answer is of the run that the page shows; where it isn't the page begins anew with that run.
function isOfThisRun(id) {
  if (!id || id === run) return true;
  const isFirst = run === null;
  run = id;
  if (!isFirst) beginAnew();
  return isFirst;
}

// Forgets the day of the run before. What stands in the form stays.
function beginAnew() {
  beganAnew = { moment: new Date(), before: audit };
  for (const number of [...bodies.keys()]) dropBody(number);
  for (const map of [venues, cards, sweeps, legsOf, dirty, terms, executions, unbooked]) map.clear();
  at("lamps").replaceChildren();
  for (const part of ["placed", "resolved", "open"]) setText(at(`sum-${part}`), "–");
  at("refusals").replaceChildren();
  show(at("nothing-refused"), true);
  recent.length = 0;
  if (!at("answer").hidden) say("warn", `Before the program was started again: ${at("answer").textContent}`);
  closing = false;
  audit = null;
  shown = WINDOW;
  readBehind = openBehind = search = null;
  at("find").value = "";
  newestRead = dayOpen = lastExecution = lookedBehind = 0;
  tell("The program was started again. The page shows its new run.");
  if (streamRun !== run) {
    following = false;
    follow();
  }
  drawStanding();
  draw();
}

let asking = null;            // the token that is asked for, while it is
let denied = false;           // whether the page reads nothing, since no token was given

// Asks the desk; where it asks for a token it has done nothing, and is asked again with one. Null where none was given.
async function request(path, signal, more = {}) {
  for (;;) {
    const token = sessionStorage.getItem("token");
    const headers = { ...more.headers, ...(token ? { Authorization: `Bearer ${token}` } : {}) };
    const response = await fetch(path, { cache: "no-store", redirect: "error", signal: signal(), ...more, headers });
    const mayNot = response.status === 403 && !more.method;
    if (response.status !== 401 && !mayNot) return response;
    if (sessionStorage.getItem("token") !== token) continue;
    const { fault } = answerOf(await response.text());
    const why = mayNot ? `${fault}: another token?` : token && "The desk didn't take that token.";
    sessionStorage.removeItem("token");
    if (denied && !more.method) return null;
    asking ??= askToken(why).finally(() => asking = null);
    const given = await asking;
    denied = !given;
    if (!given) return null;
    sessionStorage.setItem("token", given);
  }
}

async function ask(path) {
  const response = await request(path, () => AbortSignal.timeout(ANSWER_WITHIN));
  if (!response) throw new Error("no token was given");
  if (!isOfThisRun(response.headers.get("Dispatch-Run"))) throw ANOTHER_RUN;
  if (!response.ok) {
    throw Object.assign(new Error(`${path} was answered ${response.status}`), { status: response.status });
  }
  const answered = run;
  const text = await response.text();
  if (run !== answered) throw ANOTHER_RUN;
  return parse(text);
}

async function askSweeps(after, most) {
  const asked = time;
  const answer = await ask(`/api/sweeps?after=${after}&most=${most}`);
  takeDay(answer.day);
  closing = closing || answer.closing;
  return { found: answer.sweeps, asked };
}

// Reads all sweeps behind a number, and up to another where it is given.
async function readSweeps(after, upTo = Infinity) {
  while (after < upTo) {
    const { found, asked } = await askSweeps(after, Math.min(WINDOW, upTo - after));
    if (found.length === 0) return;
    for (const sweep of found) takeSweepOf(sweep, asked);
    after = greatest(found.map(sweep => sweep.sweep));
  }
}

// A number with at most WINDOW sweeps behind it, since sweeps are numbered from 1 without a gap.
async function nearNewest() {
  const isMore = async after => (await askSweeps(after, 1)).found.length > 0;
  let low = 0;
  let high = WINDOW;
  while (await isMore(high)) [low, high] = [high, 2 * high];
  while (high - low > WINDOW) {
    const middle = Math.floor((low + high) / 2);
    if (await isMore(middle)) low = middle; else high = middle;
  }
  return low;
}

async function readVenues() {
  const asked = time;
  const said = await ask("/api/venues");
  for (const venue of said.venues) if ((venues.get(venue.venue)?.time ?? -1) <= asked) takeVenue(venue);
}

let daysInHand = 0;

// Reads what no event tells, and all that is shown where events were lost.
async function readDay(whole) {
  daysInHand += 1;
  try {
    await readParts(whole);
  } finally {
    daysInHand -= 1;
  }
}

async function readParts(whole) {
  await readVenues();
  await readExecutions();
  if (readBehind === null || whole) {
    const behind = readBehind ?? Math.max(0, await nearNewest() - WINDOW);
    const openToo = showsOpen() ? openBehind ?? behind : behind;
    await readSweeps(openToo);
    readBehind = behind;
    openBehind = openToo;
    for (const number of sweeps.keys()) if (number <= openToo) await readSweeps(number - 1, number);
    for (const number of legsOf.keys()) readLegs(number);
  } else {
    await readSweeps(newest());
  }
  draw();
}

// ---- Following the events, and saying so where they are lost.

let following = false;
let lostAt = null;            // when the events were lost
let silentAt = null;          // when the desk was first found not to answer
let heardAt = null;           // when it was last heard
let wait = 1000;

// Whether what is shown is older than a reading or two.
const isStale = () => audit === null && heardAt !== null && (silentAt !== null || Date.now() - heardAt > STALE_AFTER);

function standingOf(since) {
  if (audit) return audit === "ok" ? ["off", "square", "Day closed"] : ["bad", "triangle", "Day closed, audit failed"];
  if (denied) return ["warn", "cross", "Not shown"];
  if (isStale()) return ["bad", "triangle", `No answer since ${clock(heardAt)}`];
  if (!following && !lostAt) return ["calm", "ring", "Reading the day"];
  if (!following) return ["bad", "triangle", `Events lost since ${since}`];
  return closing ? ["warn", "ring", "Closing"] : ["good", "disc", `Live, ${clock(heardAt)}`];
}

function drawStanding() {
  const since = lostAt && clock(lostAt);
  const wasStale = document.body.classList.contains("stale");
  if (document.body.classList.toggle("stale", isStale()) !== wasStale) draw();
  const [colour, shape, words] = standingOf(since);
  const standing = at("standing");
  if (standing.dataset.state !== colour + shape) {
    standing.dataset.state = colour + shape;
    standing.replaceChildren(lamp(shape, `small ${colour}`), make("span"));
  }
  setText(standing.lastChild, words);
  standing.setAttribute("aria-live", following && !closing && !audit ? "off" : "polite");
  drawBanner(since);
  at("close").disabled = closing || audit !== null;
  at("send").disabled = closing || audit !== null || handing;
  setText(at("close"), audit ? "The day is closed" : closing ? "Closing…" : "Close the day…");
}

function banner() {
  if (audit === "ok") {
    return ["off", "square", "The day is closed, and its audit found nothing wrong. This is how it ended."];
  }
  if (audit) return ["bad", "triangle", `The day is closed, and its audit FAILED: ${audit}`];
  if (denied) return ["warn", "cross", "The desk shows its day for a token alone: reload the page to give one."];
  if (lostAt && silentAt && closing) {
    const what = "It may have ended; how its audit went wasn't seen here.";
    return ["bad", "triangle", `The day was closing when the desk last answered, at ${clock(silentAt)}. ${what}`];
  }
  if (lostAt && silentAt) {
    const what = "What is shown, in grey, is as it was then; the page goes on trying.";
    return ["bad", "triangle", `The desk hasn't answered since ${clock(silentAt)}. ${what}`];
  }
  if (lostAt) {
    const what = `The page reads the day every ${LOOK_EVERY / 1000} seconds instead, and goes on trying.`;
    const why = isRefused ? " Perhaps 64 others follow the day, which is the most." : "";
    return ["warn", "cross", `Events were lost at ${clock(lostAt)}. ${what}${why}`];
  }
  if (closing) {
    return ["warn", "ring", "The day is closing. No sweep is taken any more; open shares are waited for."];
  }
  if (beganAnew) {
    const { moment, before } = beganAnew;
    const what = `All that is shown is read anew, from the run that began at ${String(run).slice(11, 19)} UTC.`;
    const how = before === "ok" ? "its audit found nothing wrong" : `its audit FAILED: ${before}`;
    const ended = before ? ` The day before it was closed, and ${how}.` : "";
    return ["calm", "ring", `The program was started again, which was seen at ${clock(moment)}. ${what}${ended}`];
  }
  return null;
}

function drawBanner() {
  const said = banner();
  show(at("banner"), said !== null);
  const words = said ? said[2] : "";
  if (at("banner").textContent === words) return;
  at("banner").replaceChildren(...(said ? [lamp(said[1], `small ${said[0]}`), make("span", null, words)] : []));
  at("banner").className = said ? `wash ${said[0]}` : "";
}

function hear() {
  heardAt = new Date();
  silentAt = null;
}

let isRefused = false;        // whether the desk never told this page events since they were lost

function lose(fault) {
  if (fault) silentAt = silentAt || heardAt || new Date();
  if (following || !lostAt) lostAt = heardAt || new Date();
  following = false;
  drawStanding();
  draw();
}

// An environment whose name begins with PROD or LIVE is the real one.
function takeLabel(said) {
  desk = said.desk || "Desk";
  environment = said.environment || "";
  setText(at("desk-name"), desk);
  setText(at("environment"), environment);
  at("top").className = environment && (/^(prod|live)/i.test(environment) ? "real" : "test");
}

const EVENTS = {
  run(said) {
    streamRun = said.run;
    takeLabel(said);
    if (!isOfThisRun(said.run)) catchUp(stream);
  },
  sweep(said) {
    takeSweep(said);
    if (legsOf.has(said.sweep)) readLegs(said.sweep);
  },
  execution: takeExecution,
  venue(said) {
    takeVenue(said);
    venues.get(said.venue).time = time;
  },
  refused(said) {
    addRefusal(said, false);
  },
  day(said) {
    takeDay(said.day || said);
  },
  closed(said) {
    closing = true;
    audit = said.audit;
    stream.abort();
    stream = null;
    tell("The day is closed.");
  },
};

let stream = null;
let streamRun = null;         // the run whose events it tells
let redial = 0;

function follow() {
  clearTimeout(redial);
  stream?.abort();
  const mine = new AbortController();
  stream = mine;
  isRefused = true;
  listen(mine).catch(() => {}).then(() => stream === mine && again(mine, null));
}

// Reads the events by itself, since an EventSource sends no token.
async function listen(mine) {
  const response = await request("/api/events", () => mine.signal);
  if (!response?.ok) return;
  isRefused = false;
  catchUp(mine);
  const reader = response.body.pipeThrough(new TextDecoderStream()).getReader();
  let text = "";
  for (let got; !(got = await reader.read()).done;) {
    const events = (text + got.value).split("\n\n");
    text = events.pop();
    for (const lines of events) {
      const { event, data } = Object.fromEntries(lines.split("\n").map(line => line.split(/: (.*)/)));
      if (event in EVENTS) take(mine, event, data);
    }
  }
}

// Reads what came before the stream; from then on the page follows.
async function catchUp(mine) {
  time += 1;
  try {
    await readDay(true);
  } catch (fault) {
    if (fault !== ANOTHER_RUN) again(mine, fault);
    else if (stream === mine) catchUp(mine);
    return;
  }
  if (stream !== mine) return;
  following = true;
  newestRead = newest();
  lostAt = null;
  wait = 1000;
  hear();
  drawStanding();
  draw();
}

function take(mine, name, data) {
  if (stream !== mine || name !== "run" && streamRun !== run) return;
  time += 1;
  try {
    EVENTS[name](parse(data));
  } catch (fault) {
    console.error(fault);
    again(mine, null);
    return;
  }
  hear();
  drawStanding();
  draw();
}

// Gives up a stream, and dials another a while later.
function again(mine, fault) {
  if (audit || fault === ANOTHER_RUN) return;
  if (stream === mine && mine !== null) {
    stream.abort();
    stream = null;
    redial = setTimeout(follow, wait);
    wait = Math.min(2 * wait, 15000);
  }
  lose(fault);
}

async function keepLooking() {
  try {
    if (audit) {
      await ask("/api/sweeps?after=0&most=1");
    } else if (daysInHand === 0) {
      await readDay(!following);
      hear();
    }
  } catch (fault) {
    again(stream, fault);
  }
  drawStanding();
  setTimeout(keepLooking, LOOK_EVERY);
}

// ---- What was refused.

function refusal(said) {
  const code = /^[A-Z]\d\d$/.test(said.refused) ? said.refused : "";
  const head = [code, said.venue].filter(Boolean).join(" ");
  return (head ? `${head}: ` : "") + (said.text || "no reason was given");
}

const recent = [];            // refusals of the last seconds, each from an event or from an answer to this page

// One of this page comes twice, as an answer and as an event, and is written down once.
function addRefusal(said, ours) {
  const words = refusal(said);
  const now = Date.now();
  const twin = recent.findIndex(other => other.words === words && other.ours !== ours && now - other.now < 5000);
  if (twin >= 0) {
    recent.splice(twin, 1);
    return;
  }
  recent.push({ words, ours, now });
  if (recent.length > MOST_REFUSALS) recent.shift();
  const mark = make("span", { class: "mark", "aria-hidden": "true" }, "✕ ");
  const line = make("li", null, mark, words, make("span", { class: "note" }, ` ${clock(new Date())}`));
  at("refusals").prepend(line);
  while (at("refusals").childElementCount > MOST_REFUSALS) at("refusals").lastChild.remove();
  show(at("nothing-refused"), false);
  if (!ours) tell(`Refused: ${words}`);
}

// ---- Asking back, and handing in.

function askBack(title, body, yes) {
  setText(at("ask-title"), title);
  at("ask-body").replaceChildren(...body);
  setText(at("ask-yes"), yes);
  at("ask").returnValue = "no";
  at("ask").showModal();
  at("ask-no").focus();
  return new Promise(resolve => {
    at("ask").onclose = () => resolve(at("ask").returnValue === "yes");
  });
}

function askToken(why) {
  setText(at("token-why"), why || "It is kept until this tab is closed.");
  at("token").value = "";
  at("token-ask").returnValue = "no";
  at("token-ask").showModal();
  at("token").focus();
  return new Promise(resolve => {
    at("token-ask").onclose = () => resolve(at("token-ask").returnValue === "yes" ? at("token").value : null);
  });
}

// Posts once. Answers null where no token was given, and `lost` where it isn't known what the desk did.
async function post(path, body) {
  const headers = { "Content-Type": "application/json" };
  const more = { method: "POST", headers, body: JSON.stringify(body) };
  try {
    const response = await request(path, () => AbortSignal.timeout(3 * ANSWER_WITHIN), more);
    if (!response) return null;
    const text = await response.text();
    isOfThisRun(response.headers.get("Dispatch-Run"));
    return { status: response.status, said: answerOf(text) };
  } catch (fault) {
    return { lost: true };
  }
}

function answerOf(text) {
  try {
    return parse(text) || {};
  } catch (fault) {
    return {};
  }
}

function say(colour, words) {
  show(at("answer"), words !== "");
  at("answer").className = `wash ${colour}`;
  setText(at("answer"), words);
  if (words) at("answer").scrollIntoView({ block: "nearest" });
}

const FIELDS = ["venue", "side", "shares", "symbol", "price"];
const WANTED = {
  venue: [value => value !== "", "choose a venue"],
  side: [value => value === "buy" || value === "sell", "choose buy or sell"],
  shares: [value => /^\d{1,7}$/.test(value) && value >= 1 && value <= 1000000, "a whole number from 1 to 1,000,000"],
  symbol: [value => /^[A-Z]{1,6}(\.[A-Z]{1,3})?$/.test(value), "1 to 6 letters, as IBM, or with a suffix, as BRK.B"],
  price: [value => tenThousandths(value) !== null, "dollars from 0.0001 to 999,999.9999, as 10.25"],
};

function fillVenues(choice) {
  const nameOf = venue => venue.state === "up" ? venue.venue : `${venue.venue} (${phaseOf(venue)})`;
  const choices = [...venues.values()].map(venue => [venue.venue, nameOf(venue)]);
  [["", "Choose"], ...choices].forEach(([value, text], i) => {
    const option = choice.options[i] || choice.appendChild(make("option"));
    if (option.value !== value) option.value = value;
    setText(option, text);
  });
}

function addLeg() {
  const choice = make("select", { name: "venue", class: "venue-choice" });
  const sides = ["", "buy", "sell"].map(value => make("option", { value }, value || "Choose"));
  const side = make("select", { name: "side" }, ...sides);
  const field = (name, more) => make("input", { name, type: "text", spellcheck: "false", ...more });
  const label = (words, kind, control) => make("label", { class: kind }, words, control);
  const fields = make("div", { class: "fields" },
    label("Venue", "wide", choice), label("Side", "wide", side),
    label("Shares", "", field("shares", { inputmode: "numeric" })),
    label("Symbol", "", field("symbol", { autocapitalize: "characters" })),
    label("Limit, $", "", field("price", { inputmode: "decimal" })));
  const remove = make("button", { type: "button", class: "remove" }, "Remove");
  const leg = make("fieldset", null, make("legend"), fields, make("p", { class: "fault", hidden: "" }), remove);
  fillVenues(choice);
  remove.addEventListener("click", () => removeLeg(leg));
  at("legs").append(leg);
  numberLegs();
  return leg;
}

function removeLeg(leg) {
  const next = leg.nextElementSibling || leg.previousElementSibling;
  leg.remove();
  numberLegs();
  next.querySelector("select").focus();
}

// Legs are counted from 1, and a sweep has one at least.
function numberLegs() {
  const legs = [...at("legs").children];
  legs.forEach((leg, i) => {
    setText(leg.querySelector("legend"), `Leg ${i + 1}`);
    leg.querySelector(".fault").id = `fault-${i + 1}`;
    leg.querySelector("button").setAttribute("aria-label", `Remove leg ${i + 1}`);
    show(leg.querySelector("button"), legs.length > 1);
  });
  at("add").disabled = legs.length >= MOST_LEGS;
  drawTotal();
}

const valueOf = (leg, name) => leg.querySelector(`[name=${name}]`).value.trim();
const valuesOf = leg => Object.fromEntries(FIELDS.map(name => [name, valueOf(leg, name)]));

function totalOf(legs) {
  let shares = 0n;
  let worth = 0n;
  for (const leg of legs) {
    const price = tenThousandths(leg.price);
    if (!WANTED.shares[0](leg.shares) || price === null) return null;
    shares += BigInt(leg.shares);
    worth += BigInt(leg.shares) * price;
  }
  return `${counted(legs.length, "leg")}, ${digits(String(shares))} shares, $${money(worth * 10000n)}`;
}

function drawTotal() {
  setText(at("total"), totalOf([...at("legs").children].map(valuesOf)) || "");
}

function clearFaults() {
  for (const field of document.querySelectorAll("[aria-invalid]")) {
    field.removeAttribute("aria-invalid");
    field.removeAttribute("aria-describedby");
  }
  for (const place of document.querySelectorAll("fieldset .fault")) show(place, false);
  say("off", "");
}

// Shows a fault at its leg, and puts the focus on its field.
function showFault(number, key, words) {
  const leg = at("legs").children[number - 1];
  const field = leg?.querySelector(`[name=${CSS.escape(key || "venue")}]`);
  if (!leg || !field) return false;
  const place = leg.querySelector(".fault");
  setText(place, words);
  show(place, true);
  field.setAttribute("aria-invalid", "true");
  field.setAttribute("aria-describedby", place.id);
  field.focus();
  return true;
}

function isWhole(legs) {
  for (const [i, leg] of legs.entries()) {
    for (const name of FIELDS) {
      const [isRight, wanted] = WANTED[name];
      if (!isRight(leg[name])) {
        showFault(i + 1, name, `${sentence(name)}: ${wanted}`);
        return false;
      }
    }
  }
  return true;
}

function summary(legs) {
  const lineOf = leg => `${leg.venue} ${leg.side} ${digits(leg.shares)} ${leg.symbol} at ${leg.price}`;
  const lines = legs.map(leg => make("li", null, lineOf(leg)));
  const amiss = [...new Set(legs.map(leg => leg.venue))].filter(name => venues.get(name)?.state !== "up");
  const rule = "A sweep is refused whole where one of its venues isn't up.";
  const words = amiss.length === 0 ? "" : `Not up now: ${amiss.join(", ")}. ${rule}`;
  const warning = make("p", { class: "fault" }, words);
  show(warning, words !== "");
  return [make("ul", null, ...lines), make("p", null, `${totalOf(legs)} at the limits`), warning];
}

let handing = false;

// What this sweep is called: under one reference the desk places a sweep at most once.
function newReference() {
  const bytes = [...crypto.getRandomValues(new Uint8Array(16))];
  return bytes.map(byte => byte.toString(16).padStart(2, "0")).join("");
}

// How often a sweep is submitted where no answer comes, and the milliseconds between two tries.
const MOST_TRIES = 4;
const TRY_AFTER = 1000;

// Submits a sweep under one reference until an answer comes, a few times. A try again needs an answer of the same run
// first: if the program was started again, the new run doesn't know the reference.
async function submit(sweep) {
  const began = run;
  let answer = await post("/api/sweeps", sweep);
  for (let tries = 1; answer?.lost && tries < MOST_TRIES; tries += 1) {
    say("warn", "Asking again, since no answer came…");
    await new Promise(resolve => setTimeout(resolve, TRY_AFTER));
    const found = await placedUnder(sweep.ref).catch(() => null);
    if (run !== began) break;
    if (found) {
      const shares = sweep.legs.reduce((sum, leg) => sum + leg.shares, 0);
      return { status: 200, said: { placed: found, shares } };
    }
    if (found === 0) answer = await post("/api/sweeps", sweep);
  }
  return answer;
}

// The number of the sweep that was placed under a reference, 0 for none.
async function placedUnder(reference) {
  try {
    const { sweep, legs } = await ask(`/api/sweeps?ref=${encodeURIComponent(reference)}`);
    terms.set(sweep, termsOf(legs));
    return sweep;
  } catch (fault) {
    if (fault.status === 404) return 0;
    throw fault;
  }
}

async function handIn(event) {
  event.preventDefault();
  if (handing || at("send").disabled) return;
  clearFaults();
  const legs = [...at("legs").children].map(valuesOf);
  if (!isWhole(legs) || !await askBack("Hand in this sweep?", summary(legs), "Hand in")) return;
  handing = true;
  drawStanding();
  say("calm", "Handing in…");
  const said = legs.map(({ shares, ...leg }) => ({ ...leg, shares: Number(shares) }));
  const answer = await submit({ ref: newReference(), legs: said });
  handing = false;
  drawStanding();
  takeAnswer(answer);
}

function takeAnswer(answer) {
  if (answer === null) return say("warn", "Not handed in: the desk asks for its token.");
  if (answer.lost) {
    const what = "The sweep may have been placed: look at the sweeps before you hand it in again.";
    return say("bad", `No answer came. ${what}`);
  }
  const { status, said } = answer;
  if (status === 201 || status === 200) {
    say("good", `Placed as sweep ${said.placed}: ${counted(said.shares, "share")}.`);
    at("legs").replaceChildren();
    addLeg().querySelector("select").focus();
  } else if (status === 409) {
    say("bad", `Refused: ${refusal(said)}`);
    addRefusal(said, true);
  } else if (!said.leg || !showFault(said.leg, said.key, sentence(said.fault))) {
    const where = said.line ? ` (line ${said.line}, column ${said.column})` : said.leg ? ` (leg ${said.leg})` : "";
    say("bad", `Not taken, ${status}: ${said.fault || said.text || "no reason was given"}${where}`);
  } else {
    say("bad", `Not taken: leg ${said.leg} has a fault.`);
  }
}

async function closeDay() {
  const body = [
    make("p", null, "No sweep is taken any more. Open shares are waited for, and then every venue is logged out."),
    make("p", null, "This can't be undone."),
    make("p", null, `Open now: ${at("sum-open").textContent} shares.`),
  ];
  if (!await askBack("Close the day?", body, "Close the day")) return;
  const answer = await post("/api/close", {});
  if (answer?.status === 202) closing = true;
  else if (answer?.lost) say("bad", "No answer came. The day may be closing: look at the top of the page.");
  else if (answer === null) say("bad", "The day isn't closed: the desk asks for its token.");
  else say("bad", `The day isn't closed: ${answer.said.fault || answer.said.text || answer.status}`);
  drawStanding();
}

// ---- Keys, clicks and the first reading.

// Up and down, Home and End go from sweep to sweep.
function walk(event) {
  const buttons = [...at("table").querySelectorAll("tbody:not([hidden]) button.opens")];
  const from = buttons.indexOf(document.activeElement);
  const to = { ArrowDown: from + 1, ArrowUp: from - 1, Home: 0, End: buttons.length - 1 }[event.key];
  if (from < 0 || to === undefined || event.altKey || event.ctrlKey || event.metaKey) return;
  event.preventDefault();
  buttons[Math.min(Math.max(to, 0), buttons.length - 1)].focus();
}

function begin() {
  at("form").addEventListener("submit", handIn);
  at("legs").addEventListener("input", event => {
    if (event.target.name === "symbol") {
      const place = event.target.selectionStart;
      event.target.value = event.target.value.toUpperCase();
      event.target.setSelectionRange(place, place);
    }
    drawTotal();
  });
  at("add").addEventListener("click", () => addLeg().querySelector("select").focus());
  at("close").addEventListener("click", closeDay);
  at("ask-no").addEventListener("click", () => at("ask").close("no"));
  at("ask-yes").addEventListener("click", () => at("ask").close("yes"));
  at("token-no").addEventListener("click", () => at("token-ask").close("no"));
  at("token-form").addEventListener("submit", event => {
    event.preventDefault();
    at("token-ask").close("yes");
  });
  at("table").addEventListener("keydown", walk);
  at("only-open").addEventListener("change", draw);
  at("finder").addEventListener("submit", event => {
    event.preventDefault();
    find();
  });
  at("find").addEventListener("input", () => {
    clearTimeout(finding);
    finding = setTimeout(find, FIND_AFTER);
  });
  at("older").addEventListener("click", alone(async () => {
    const behind = Math.max(0, readBehind - WINDOW);
    await readSweeps(behind, readBehind);
    shown += WINDOW;
    readBehind = behind;
    openBehind = Math.min(openBehind, behind);
    draw();
  }));
  setText(at("place"), location.host);
  addLeg();
  drawStanding();
  follow();
  setTimeout(keepLooking, LOOK_EVERY);
  setInterval(() => {
    drawStanding();
    drawVenues();
  }, 1000);
}

begin();
</script>
</body>
</html>
"###;

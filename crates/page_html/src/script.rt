//! The script.

/// The script of all pages: it keeps a board turned from page to page, copies, and plays through a game. No rule of chess is in it: each move
/// of a game says which squares it changes.
pub const SCRIPT: &[u8] = b"\
'use strict';
(() => {
  const root = document.documentElement;
  const all = (selector) => [...document.querySelectorAll(selector)];
  const parts = (hash) => hash.slice(1).split('.').filter((part) => part);
  const isBack = () => root.classList.contains('back');
  const button = (text, name, act) => {
    const made = document.createElement('button');
    made.type = 'button';
    made.textContent = text;
    if (name) made.setAttribute('aria-label', name);
    made.addEventListener('click', act);
    return made;
  };

  // The board stays as it was turned on all pages that are gone to from here on, since each link says so.
  function turn(back) {
    root.classList.toggle('back', back);
    for (const link of all('a[href*=\".html\"]')) {
      const others = parts(link.hash).filter((part) => part !== 'turned');
      link.hash = (back ? [...others, 'turned'] : others).join('.');
    }
  }
  root.classList.add('scripted');
  const turn_as_told = () => turn(parts(location.hash).includes('turned'));
  turn_as_told();
  addEventListener('hashchange', turn_as_told);
  for (const link of all('a.turn')) {
    link.addEventListener('click', (event) => {
      event.preventDefault();
      turn(!isBack());
      show_place();
      document.querySelector((isBack() ? '.turned' : '.facing') + ' a.turn').focus({ preventScroll: true });
    });
  }

  // What the address says: the half-move of a game, and whether the board is turned.
  let at = 0;
  function show_place() {
    const hash = [...(at ? ['m' + at] : []), ...(isBack() ? ['turned'] : [])].join('.');
    history.replaceState(null, '', '#' + (hash || 'facing'));
  }

  // A field, and the text of a game, is copied by a button beside it.
  function copy(text, told) {
    const done = () => { told.textContent = 'Copied'; };
    if (navigator.clipboard && window.isSecureContext) {
      navigator.clipboard.writeText(text).then(done, () => {});
      return;
    }
    const field = document.createElement('textarea');
    field.value = text;
    document.body.append(field);
    field.select();
    if (document.execCommand('copy')) done();
    field.remove();
  }
  for (const field of all('.copies input')) {
    const made = button('Copy', '', () => copy(field.value, made));
    field.after(made);
  }
  for (const text of all('.pgn')) {
    const made = button('Copy', '', () => copy(text.textContent, made));
    text.before(made);
  }

  // A game is played through.
  const line = document.querySelector('.line');
  if (!line) return;
  const moves = [...line.querySelectorAll('a')];
  const squares = [...'87654321'].flatMap((rank) => [...'abcdefgh'].map((file) => file + rank));

  // The men of a placement, as the first field of a FEN has them.
  function placed(placement) {
    const cells = [...placement].filter((c) => c !== '/').flatMap((c) => (c > '0' && c < '9' ? Array(+c).fill('') : [c]));
    return new Map(squares.map((square, i) => [square, cells[i]]).filter(([, man]) => man));
  }
  const states = [placed(line.dataset.start.split(' ')[0])];
  for (const move of moves) {
    const next = new Map(states[states.length - 1]);
    for (const change of move.dataset.go.split(' ').slice(1)) {
      next.delete(change.slice(0, 2));
      if (change.length > 2) next.set(change.slice(0, 2), change[2]);
    }
    states.push(next);
  }

  function element(name, attributes) {
    const made = document.createElementNS('http://www.w3.org/2000/svg', name);
    for (const key in attributes) made.setAttribute(key, attributes[key]);
    return made;
  }
  const rising = [...squares].sort((a, b) => a[1] - b[1] || a.charCodeAt(0) - b.charCodeAt(0));
  const told = (men, side, capital) => [side, ...[...'KQRBNP'].flatMap((kind) => rising
    .filter((square) => men.get(square) === (capital ? kind : kind.toLowerCase()))
    .map((square) => (kind === 'P' ? '' : kind) + square))].join(' ');

  // Draws the men behind the moves so far on a board, and marks the last move.
  function draw(board, men, last) {
    const back = board.dataset.below === 'b';
    const place = (square) => {
      const [left, below] = [square.charCodeAt(0) - 97, square.charCodeAt(1) - 49];
      return { x: 45 * (back ? 7 - left : left), y: 45 * (back ? below : 7 - below) };
    };
    for (const mark of board.querySelectorAll('.last')) mark.remove();
    const group = board.querySelector('g');
    for (const square of last) group.before(element('rect', { class: 'last', width: 45, height: 45, ...place(square) }));
    group.replaceChildren(...[...men].map(([square, man]) => element('use', {
      href: '#' + man.toUpperCase(), class: man < 'a' ? 'white' : 'black', ...place(square),
    })));
    board.setAttribute('aria-label', told(men, 'White', true) + '; ' + told(men, 'Black', false));
  }

  const says = document.createElement('p');
  says.setAttribute('aria-live', 'polite');
  function go(to) {
    at = Math.max(0, Math.min(moves.length, to));
    const move = moves[at - 1];
    const last = move ? [move.dataset.go.slice(0, 2), move.dataset.go.slice(2, 4)] : [];
    for (const board of all('.board svg')) draw(board, states[at], last);
    for (const one of moves) one.removeAttribute('aria-current');
    says.replaceChildren(move ? `Move ${at} of ${moves.length}: ${move.textContent}` : 'The start of the game');
    if (move) {
      move.setAttribute('aria-current', 'step');
      if (move.getAttribute('href')[0] !== '#') {
        const link = document.createElement('a');
        link.href = move.href;
        link.textContent = 'all games here';
        says.append(', ', link);
      }
    }
    show_place();
  }
  moves.forEach((move, i) => move.addEventListener('click', (event) => {
    event.preventDefault();
    go(i + 1);
  }));
  document.addEventListener('keydown', (event) => {
    if (event.altKey || event.ctrlKey || event.metaKey || event.target.closest('.pgn')) return;
    const to = { ArrowLeft: at - 1, ArrowRight: at + 1, Home: 0, End: moves.length }[event.key];
    if (to === undefined) return;
    event.preventDefault();
    go(to);
  });
  const controls = document.createElement('div');
  controls.className = 'controls';
  controls.append(
    button('|\\u25c0', 'To the start', () => go(0)), button('\\u25c0', 'Back', () => go(at - 1)),
    button('\\u25b6', 'On', () => go(at + 1)), button('\\u25b6|', 'To the end', () => go(moves.length)), says);
  document.querySelector('.boards').append(controls);
  const go_as_told = () => {
    const told = parts(location.hash).find((part) => /^m\\d+$/.test(part));
    go(told ? +told.slice(1) : 0);
  };
  go_as_told();
  addEventListener('hashchange', go_as_told);
})();
";

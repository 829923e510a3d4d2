ghost use Rattle.std.specs.Prelude.{◌≡◌, ◌+◌, drop};
ghost use Rattle.page_dir.specs.Pages.{joined};
ghost use Rattle.page_dir.specs.Spread.{IsWalk, pages_in, start};

use crate::spread::Spread;
use std::marker::Model;

/// Goes over pairs, rising.
#[derive(Drop)]
pub struct PageWalk<'a, K: Copy, V: Copy> {
    spread: &'a Spread<K, V>,
    page: usize,
    at: usize,
}

impl<'a, K: Copy, V: Copy> Model for PageWalk<'a, K, V> {
    ghost use Rattle.std.specs.Prelude.{List, drop};
    ghost use Rattle.page_dir.specs.Pages.{joined};
    ghost use Rattle.page_dir.specs.Spread.{IsWalk, pages_in};

    ghost Value = { List (K × V) };

    ghost view = { λ w. drop w.at (joined (drop w.page (pages_in w.spread.now))) };

    ghost invariant = { λ w. IsWalk (pages_in w.spread.now) w.page w.at };
}

impl<K: Copy, V: Copy> PageWalk<'_, K, V> {
    pub(crate) fn over(spread: &Spread<K, V>, page: usize, at: usize) -> PageWalk<'_, K, V>
        requires { IsWalk (pages_in spread.now) page at }
        ensures { result ≡ drop (start (pages_in spread.now) page + at) (joined (pages_in spread.now)) }
    {
        PageWalk { spread, page, at }
    }
}

impl<K: Copy, V: Copy> Iterator for PageWalk<'_, K, V> {
    ghost use Rattle.std.specs.Iterator.{YieldsFirst, item_count};

    type Item = (K, V);

    ghost next_gives = { YieldsFirst (λ w. w) };

    ghost remaining = { item_count (λ w. w) };

    fn next(&mut self) -> Option<(K, V)> {
        if self.page == self.spread.len() {
            return None;
        }
        let page = self.spread.page(self.page);
        let pair = page[self.at];
        self.at += 1;
        if self.at == page.len() {
            self.page += 1;
            self.at = 0;
        }
        Some(pair)
    }
}

// What is put into a track at once: at most two items and gaps.
ghost use Rattle.std.specs.Prelude.{◌≡◌, ◌++◌, ◌≤◌, [], ◌∷◌, length};
ghost use Rattle.edit_splice.specs.Padding.{new_views};
ghost use Rattle.composables.specs.Views.{gap_views};

use composables::ItemView;
use std::marker::Model;

/// At most two items and gaps.
#[derive(Drop)]
pub struct Few {
    both: [ItemView; 2],
    count: usize,
}

impl Model for Few {
    ghost use Rattle.std.specs.Prelude.{◌≤◌, List, take};
    ghost use Rattle.composables.specs.declared.items.ItemView.{ItemView};

    ghost Value = { List ItemView };

    ghost view = { λ f. take f.count f.both };

    ghost invariant = { λ f. f.count ≤ 2 };
}

impl Few {
    /// A gap of so many frames, if there are any, and after it an item, if there is one.
    pub fn of(dark: u32, item: Option<ItemView>) -> Few
        ensures { result ≡ gap_views dark ++ new_views item }
    {
        let gap = ItemView::gap(dark);
        match item {
            Some(view) if dark > 0 => Few {
                both: [gap, view],
                count: 2,
            },
            Some(view) => Few {
                both: [view, gap],
                count: 1,
            },
            None => Few {
                both: [gap, gap],
                count: if dark > 0 { 1 } else { 0 },
            },
        }
    }

    /// The items and gaps, in order.
    pub fn as_slice(&self) -> &[ItemView]
        ensures { result.now ≡ self.now }
    {
        &self.both[..self.count]
    }
}

//! The data that queries read, which is the view of the published arrivals, with its rule and the steps that keep it. The
//! steps: a place is taken, arrivals are published, the writer informs a reader, the reader learns it, a query enters.

ghost use Rattle.std.specs.FinSet as set;
ghost use Rattle.sct_message.specs.Sets.{messages_in};
ghost use Rattle.sct_set.specs.Contents.{contents_of};

use atomic_table::{Join, Split};
use crossbeam_utils::rule::{Outcome, Protocol};
use left_right::Absorb;
use left_right::reader::Reader;
use left_right::writer::Writer;
use sct_message::Message;
use sct_site::Track;
use sct_view::View;
use std::alloc::AllocError;
use std::marker::Model;
use std::sync::Arc;

/// A view, with the arrivals that it is of.
#[derive(Drop)]
pub struct Shown {
    pub view: View,
    pub track: Track,
}

/// Messages to add to a view, with the arrivals that it is of afterwards.
#[derive(Drop)]
pub struct ViewUpdate {
    pub messages: Vec<Arc<Message>>,
    pub track: Track,
}

impl Absorb<ViewUpdate> for Shown {
    type State = Shown;

    ghost state = { λ s. s };

    ghost applied = { λ s b. record {
      view = set.union s.view (contents_of (messages_in b.messages.items));
      track = b.track;
    } };

    fn absorb_first(&mut self, operation: &ViewUpdate, _other: &Shown) -> Result<(), AllocError> {
        let Ok(_) = self.view.apply(&operation.messages) else {
            return Err(AllocError);
        };
        self.track = operation.track.again();
        Ok(())
    }
}

/// What a seat knows of the published arrivals. A seat has this only in proofs.
pub struct Glimpse {
    track: Option<Track>,
}

impl Model for Glimpse {
    ghost use Rattle.std.specs.Prelude.{option_map, unwrap_or};
    ghost use Rattle.sct_desk.specs.Rules.{Known, known_of, nothing_known};

    ghost Value = { Known };

    ghost view = { λ g. unwrap_or (option_map known_of g.track) nothing_known };
}

/// The rule: what is published is the view of its arrivals, and each seat knows a beginning of these. A seat
/// that was just taken knows the empty list.
pub struct PublishedViewRule;

impl Protocol<Shown, Glimpse> for PublishedViewRule {
    ghost use Rattle.sct_desk.specs.Rules.{KeepsRule, nothing_known};

    ghost holds = { KeepsRule };

    ghost first = { nothing_known };
}

/// A publication, and the entry of a query.
pub struct ShowsArrivals;

impl Outcome<Shown, Glimpse> for ShowsArrivals {
    ghost use Rattle.sct_desk.specs.Rules.{Shows};

    ghost then = { Shows };
}

/// The report of the writer to a reader: all that the writer knows. From then on the
/// reader knows the longer of the two lists.
pub struct WriterKnowledge;

impl Split<Glimpse> for WriterKnowledge {
    ghost left = { λ v. v };

    ghost right = { λ v. v };
}

impl Join<Glimpse> for WriterKnowledge {
    ghost use Rattle.sct_desk.specs.Rules.{longer_known, nothing_known};

    ghost both = { longer_known };

    ghost spent = { nothing_known };
}

/// The writer of a published view.
pub type ShownWriter = Writer<Shown, ViewUpdate, Glimpse, PublishedViewRule>;

/// A reader of a published view.
pub type ShownReader = Reader<Shown, Glimpse, PublishedViewRule>;

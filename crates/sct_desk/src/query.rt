//! Queries: they read the published view, and never wait.

ghost use Rattle.std.specs.Prelude.{◌≡◌, ◌≢◌, ◌⊎◌, IfOk, IfErr};
ghost use Rattle.sct_delta.specs.Entries.{IsArrivals, messages_of};
ghost use Rattle.sct_site.specs.Sights.{IsLonger};
ghost use Rattle.sct_desk.specs.Answering.{AnswersFromView};
ghost use Rattle.sct_desk.specs.declared.fault.DeskFault.TheVariants as fault;

use crate::fault::DeskFault;
use crate::question::ViewQuestion;
use crate::receipt::Receipt;
use crate::shown::{ShownReader, ShowsArrivals};
use sct_site::Track;
use std::marker::Model;

/// An answer, and the number of the site's arrivals that it is based on.
#[derive(Debug, Drop, PartialEq, Eq)]
pub struct Answer<T> {
    pub value: T,
    pub front: u64,
}

/// A place at a desk from which the published view is read. Each answer is based on a beginning of the site's arrivals.
/// That beginning has all that the query has seen before, and all that the receipts show that it learned.
#[derive(Drop)]
pub struct Query {
    pub(crate) site: u16,
    pub(crate) reader: ShownReader,
    pub(crate) track: Track,
}

impl Model for Query {
    ghost use Rattle.std.specs.Prelude.{◌≡◌, Some};
    ghost use Rattle.left_right.specs.Sides.{view as seat_view};
    ghost use Rattle.sct_desk.specs.Passes.{Asked};

    ghost Value = { Asked };

    ghost view = { λ q. record { site = q.site; book = q.track.book; seen = q.track.log } };

    ghost invariant = { λ q. (seat_view q.reader.place).book ≡ Some q.track.book };
}

impl Query {
    /// Makes later answers include everything that `receipt` shows. No effect for a
    /// receipt of another site. It does not allocate.
    pub fn learn(&mut self, receipt: &Receipt)
        requires { receipt.now.site ≡ self.old.site → receipt.now.book ≡ self.old.book }
        ensures same { (self.new.site ≡ self.old.site) × (self.new.book ≡ self.old.book) }
        ensures longer { receipt.now.site ≡ self.old.site
            → IsLonger self.old.seen receipt.now.shown self.new.seen }
        ensures other { receipt.now.site ≢ self.old.site → self.new.seen ≡ self.old.seen }
        ensures order { IsArrivals self.new.seen }
    {
        if receipt.site == self.site {
            self.track = self.track.longer(&receipt.track);
        }
        // The call is made for its contract: a track's log is a list of arrivals.
        let _seen = self.track.len();
    }

    /// Answers a question from the published view. The query is returned, with what it has seen by then.
    pub(crate) fn answer<Q: ViewQuestion>(
        self,
        question: &Q,
    ) -> (Query, Result<Answer<Q::Value>, DeskFault>)
        ensures answer { AnswersFromView self result.0 result.1 }
        ensures value { IfOk result.1 (λ answer.
            Q.is_answer question.now (messages_of result.0.seen) answer.value) }
        ensures refused { IfErr result.1 (λ refusal. (refusal ≡ fault.Closed)
            ⊎ ((refusal ≡ fault.Memory) × Q.may_want)) }
    {
        let Query {
            site,
            reader,
            track,
        } = self;
        // The call is made for its contract: a track's log is a list of arrivals.
        let _known = track.len();
        let reading = match reader.enter_as::<ShowsArrivals>() {
            Ok(reading) => reading,
            Err(reader) => {
                let query = Query {
                    site,
                    reader,
                    track,
                };
                return (query, Err(DeskFault::Closed));
            }
        };
        if !track.begins(&reading.get().track) {
            let query = Query {
                site,
                reader: reading.leave(),
                track,
            };
            return (query, Err(DeskFault::Closed));
        }
        let seen = reading.get().track.again();
        let front = seen.len();
        let asked = question.ask(&reading.get().view);
        let query = Query {
            site,
            reader: reading.leave(),
            track: seen,
        };
        match asked {
            Ok(value) => (query, Ok(Answer { value, front })),
            Err(_) => (query, Err(DeskFault::Memory)),
        }
    }
}

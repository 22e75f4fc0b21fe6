//! What is told of a request in one piece, if it is at hand.

ghost use Rattle.std.specs.Prelude.{◌≡◌, ◌≤◌, ◌++◌, IfSome, take};
ghost use Rattle.fw_trace_names.specs.Names.{Naming};
ghost use Rattle.fw_trace_requests.specs.Answers.{asked_text, changes_asked, if_made};
ghost use Rattle.fw_trace_requests.specs.Carried.{frame_told};
ghost use Rattle.fw_trace_requests.specs.Replies.{reply_text, replied_text};

use crate::carried::Carried;
use crate::memo::Memo;
use crate::packets::Reply;
use crate::phrase::Phrase;
use fw_log_requests::Asked;
use fw_trace_names::TOLD;

impl Memo {
    // The row that begins with what a request asks, carries and would change, and the length of that, if it is at hand.
    #[inline(always)]
    pub(crate) fn proposed(&self, q: &Asked, carried: Carried) -> Option<(&[u8; TOLD], usize)>
        ensures { IfSome result (λ r. (r.1 ≤ 112) × ((n : Naming) → take r.1 r.0.now ≡ asked_text q.now ++ (frame_told carried ++ if_made (changes_asked n q.now)))) }
    {
        match Phrase::proposed(q, carried) {
            Some(phrase) => self.row(&phrase),
            None => None,
        }
    }

    // The row that begins with what a request asks and carries, and the response brings that answers it, and the length of that, if it is at hand.
    #[inline(always)]
    pub(crate) fn replied(
        &self,
        q: &Asked,
        carried: Carried,
        r: &Reply,
    ) -> Option<(&[u8; TOLD], usize)>
        ensures { IfSome result (λ t. (t.1 ≤ 112) × ((n : Naming) → take t.1 t.0.now ≡ asked_text q.now ++ (frame_told carried ++ reply_text n q.now r.now))) }
    {
        match Phrase::replied(q, carried, r) {
            Some(phrase) => self.row(&phrase),
            None => None,
        }
    }

    // The same of a response, and of the request that it answers, if there is one.
    #[inline(always)]
    #[tactic(auto, unfolding(crate::specs::Replies::replied_text, crate::specs::Carried::frame_told))]
    pub(crate) fn answered(&self, q: &Option<Asked>, r: &Reply) -> Option<(&[u8; TOLD], usize)>
        ensures { IfSome result (λ t. (t.1 ≤ 112) × ((n : Naming) → take t.1 t.0.now ≡ replied_text n q.now r.now)) }
    {
        match q {
            Some(q) => self.replied(q, Carried::Nothing, r),
            None => None,
        }
    }
}

//! Theorems about texts of replies, each as a call without a body.
ghost use Rattle.std.specs.Prelude.{◌≡◌, ℕ, List, Bool};
ghost use Rattle.iss_request.specs.declared.requests.Value.{Value};
ghost use Rattle.iss_request.specs.declared.setups.Setup.{Setup};
ghost use Rattle.iss_schedule.specs.declared.errors.LineFault.{LineFault};
ghost use Rattle.iss_reply.specs.Clients.{AreHonest, cluster_of};
ghost use Rattle.iss_reply.specs.declared.replies.Reply.{Reply};
ghost use Rattle.iss_answers.specs.Printed.{AreBelieved};
ghost use Rattle.iss_answers.specs.Refusals.{IsBadText};
ghost use Rattle.iss_answers.specs.Texts.{IsTold};
ghost use Rattle.iss_answers.specs.declared.told.Told.{Told};

/// Each answer that a client accepts is the log's, under two conditions. At most f nodes are faulty, and each reply
/// that verifies for a correct node is that node's reply to a request of the log.
pub fn accepted_answers_are_the_logs()
    ensures { (s : Setup) (correct : ℕ → Bool) (log : List Value) (replies : List Reply) →
        AreHonest s correct log replies → AreBelieved log (cluster_of s) replies }
{}

/// A text is that of at most one list of replies, and a text with a bad line is that of none. So a text is refused
/// exactly if it is not one of replies, unless memory runs out.
pub fn texts_and_replies()
    ensures one { (bytes : List ℕ) (t u : Told) → IsTold bytes t → IsTold bytes u → t ≡ u }
    ensures none { (bytes : List ℕ) (line : ℕ) (why : LineFault) (t : Told) → IsBadText bytes line why →
        ¬ IsTold bytes t }
{}

use mh_base::Seq;
use mh_handle::Answer;

/// The answers of one thread's calls, in the order of the calls.
pub type Answers = Seq<Answer>;

/// The answers of each thread.
pub type ThreadAnswers = Seq<Answers>;

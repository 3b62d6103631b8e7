use crate::site_pass::SitePass;
use mh_handle::FormPass;
use mh_intern::TypeSeat;
use mh_jobs::Run;

/// What one thread has of a run: what it knows of the call sites, and its attempts. Also its pass
/// over the table of forms, and its seat of the table of types. A thread has a pass of its own,
/// that it gives to the calls of the [`Linker`](crate::Linker) which the threads share.
///
/// The last two are public for a thread that also makes handles of its own by the combinators: they
/// are what a [`Work`](mh_handle::Work) is made of.
#[derive(Drop)]
pub struct Pass<'s, 't, J: Run> {
    /// What the thread knows of the call sites, and what it has attempted.
    pub links: SitePass<'s, 't, J>,
    /// What the thread knows of the table of forms.
    pub forms: FormPass<'t>,
    /// The types that the thread's handles and its recorded linkages hold.
    pub types: TypeSeat,
}

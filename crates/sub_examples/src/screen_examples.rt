//! Examples of the time at which a receiver shows a page on its screen, and of a good transmission
//! that some receivers do not show.
//!
//! The examples test the definitions of `ttx_page`, `sub_rules` and `sub_laws`. The functions do
//! nothing.
ghost use Rattle.sub_examples.specs.ScreenExamples.{ExampleOfEndedPage, ExampleOfUnendedPage};
ghost use Rattle.sub_examples.specs.ScreenExamples.{ExampleOfRestartedPage, ExampleOfPageNotEnded};

/// A receiver shows a page when a header ends the page, and not when a row is received. If the
/// header of an open page is received again, the receiver may show the page.
pub fn examples_of_screens()
    ensures ended { ExampleOfEndedPage }
    ensures not_ended { ExampleOfPageNotEnded }
    ensures restarted_page { ExampleOfRestartedPage }
{}

/// A good transmission whose page is never ended by a header: every receiver has the page, but some
/// receivers do not show it.
pub fn example_of_unended_page()
    ensures { ExampleOfUnendedPage }
{}

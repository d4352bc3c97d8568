//! Parses the pages of `survey`.
ghost use Rattle.std.specs.Prelude.{◌≡◌, ◌==◌, ◌&&◌, [], IfErr, IfOk, map, option_map};
ghost use Rattle.std.specs.Prelude.{slice_get};
ghost use Rattle.clap.specs.Words.{all_of, found_of, rows_of};
ghost use Rattle.ttx_packet.specs.PageId.{page_of_text};
ghost use Rattle.sub_words.specs.Arguments as arguments;
ghost use Rattle.sub_words.specs.Arguments.{is_same_page};
ghost use Rattle.sub_words.specs.Texts.{list_after_texts};

use crate::lists::{Item, parse_items};
use clap::ArgMatches;
use mpeg_ts::{MAX_SURVEY_PAGES, SurveyPages};
use std::alloc::Global;
use sub_request::UsageFault;
use ttx_packet::PageId;

impl Item for PageId {
    ghost parsed = { page_of_text };

    ghost same = { is_same_page };

    fn read(text: &str) -> Option<PageId> {
        PageId::parse(text).ok()
    }

    fn is_same(&self, other: &PageId) -> bool {
        self.magazine() == other.magazine() && self.page() == other.page()
    }
}

/// Returns the pages of a survey, from each `--page` or from the option's default. Returns `None`
/// if the option has no default either, if a text is no page, if a page is given twice, or if there
/// are more than eight pages.
///
/// # Errors
///
/// The only fault is `Memory`.
pub fn survey_pages_at<'a>(
    alloc: Global,
    matches: &ArgMatches<'a>,
) -> Result<Option<SurveyPages>, UsageFault>
    ensures value { IfOk result (λ pages.
        pages ≡ arguments.survey_pages_of (rows_of (found_of matches.now))) }
    ensures memory { IfErr result (λ fault. fault ≡ UsageFault.Memory) }
{
    let Some(texts) = texts_at(matches, "page") else {
        return Ok(None);
    };
    match parse_items(alloc, texts) {
        Ok(Some(pages)) => Ok(survey_pages(pages.as_slice())),
        Ok(None) => Ok(None),
        Err(_) => Err(UsageFault::Memory),
    }
}

/// Returns the texts of all uses of an option, or its default if the user left the option out.
/// Returns `None` if the option has no default either.
#[tactic(auto, using(crate::proofs::CommandLemmas::values))]
pub fn texts_at<'a, 'b>(matches: &'b ArgMatches<'a>, id: &str) -> Option<&'b [&'a str]>
    ensures { option_map (λ texts. map (λ text. text.now) texts.now) result
        ≡ all_of id.now (rows_of (found_of matches.now)) }
{
    matches.get_raw(id)
}

// Returns the pages in the form for a survey, or `None` if there are too many.
fn survey_pages(pages: &[PageId]) -> Option<SurveyPages>
    ensures { result ≡ arguments.survey_pages pages.now }
{
    if pages.len() > MAX_SURVEY_PAGES {
        return None;
    }
    Some([
        page_at(pages, 0),
        page_at(pages, 1),
        page_at(pages, 2),
        page_at(pages, 3),
        page_at(pages, 4),
        page_at(pages, 5),
        page_at(pages, 6),
        page_at(pages, 7),
    ])
}

// Returns a page, or `None` if there are not so many.
fn page_at(pages: &[PageId], place: usize) -> Option<PageId>
    ensures { result ≡ slice_get pages.now place }
{
    pages.get(place).copied()
}

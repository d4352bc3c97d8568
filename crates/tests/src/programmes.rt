//! Subtitle files and their programmes, and a lack of memory. Other tests cover the lines for
//! rejected files.
ghost use Rattle.std.specs.Prelude.{⊤, false};

use crate::asserting::{assert_same, assert_same_for_case};
use fixtures::{HEAD, HI, TEN, block, file_of_two, gsi, head, put};
use linked_list_allocator::LocalHeap;
use std::alloc::Global;
use std::process::Abort;
use std::test::Fail;
use stl_file::Scope;
use stl_rows::{
    Drawing, Judging, Layout, LoadFault, LoadFaultKind, National, Programme, load, load_all,
    load_with_allocator,
};
use sub_io::{MemSource, ReportSink, Stopped};
use ttx_page::Page;

// Asserts the next frame at which the expected page may change, and the first cell other than a
// space in the expected page.
fn assert_due(
    rt: &impl Abort,
    programme: &Programme,
    frame: u32,
    edge: Option<u32>,
    first: Option<(u8, u8)>,
) {
    let cell = programme.due_page(frame).first_difference(&Page::blank());
    assert_same_for_case(
        rt,
        &(programme.next_edge(frame), cell),
        &(edge, first),
        &frame,
    );
}

// Asserts the expected pages of a programme with two subtitles of two seconds each.
fn assert_both_subtitles_due(rt: &impl Abort, programme: &Programme) {
    assert_due(rt, programme, TEN - 1, Some(TEN), None);
    assert_due(rt, programme, TEN, Some(TEN + 50), Some((22, 16)));
    assert_due(rt, programme, TEN + 49, Some(TEN + 50), Some((22, 16)));
    assert_due(rt, programme, TEN + 50, Some(TEN + 100), Some((22, 17)));
    assert_due(rt, programme, TEN + 100, None, None);
}

// Asserts the number of subtitles, the times and the national option of the programme with two
// subtitles.
fn assert_holds(rt: &impl Abort, programme: &Programme) {
    assert_same(rt, &(programme.len(), programme.is_empty()), &(2, false));
    assert_same(rt, &programme.first_tci(), &Some(TEN));
    assert_same(rt, &programme.last_tco(), &Some(TEN + 100));
    assert_same(rt, &programme.national(), &National::German);
}

// Asserts the frames at which the two subtitles of a programme end, and the TCIs of these
// subtitles.
fn assert_both_subtitles_end(rt: &impl Abort, programme: &Programme) {
    for frame in [0, TEN - 1, TEN, TEN + 49, TEN + 51, TEN + 99, TEN + 101] {
        assert_same_for_case(
            rt,
            &programme.tci_of_subtitle_ending_at(frame),
            &None,
            &frame,
        );
    }
    assert_same(
        rt,
        &programme.tci_of_subtitle_ending_at(TEN + 50),
        &Some(TEN),
    );
    assert_same(
        rt,
        &programme.tci_of_subtitle_ending_at(TEN + 100),
        &Some(TEN + 50),
    );
}

#[test]
fn loads_subtitles_in_order(rt: HostRuntime) -> Result<(), Fail> {
    let second = block(&head(TEN + 50, TEN + 100, 22), &[0x41]);
    let file = file_of_two(&block(&HEAD, &HI), &second);
    let programme = load(
        rt.alloc(),
        &mut MemSource::new(&file),
        National::German,
        Layout::default(),
        Scope::whole(),
    )?;
    assert_holds(&rt, &programme);
    assert!(rt; programme.len() == 2);
    assert_same(&rt, &programme.subtitle(1).text(), &&b"A"[..]);
    assert_both_subtitles_due(&rt, &programme);
    assert_both_subtitles_end(&rt, &programme);
    Ok(())
}

// Returns a file of nine subtitles.
fn file_of_nine() -> [u8; 2176] {
    let mut file = [0; 2176];
    put(&mut file, 0, &gsi());
    for i in 0..9 {
        let hi = block(&head(50 * i, 50 * i + 50, 22), &HI);
        put(&mut file, 1024 + 128 * i as usize, &hi);
    }
    file
}

// Loads a file of nine subtitles with this much memory. Returns the block at which memory ran out,
// if it did.
fn refused_block(rt: &(impl Abort + Alloc<A = Global>), file: &[u8], size: usize) -> Option<u32> {
    let heap = LocalHeap::new(rt.alloc(), size).expect(rt, "memory for the heap");
    let drawing = Drawing {
        national: National::English,
        layout: Layout::default(),
        scope: Scope::whole(),
    };
    match load_with_allocator(&heap, &mut MemSource::new(file), drawing) {
        Ok(subtitles) => {
            assert_same(rt, &subtitles.len(), &9);
            None
        }
        Err(fault) => {
            assert_same(rt, &fault.kind, &LoadFaultKind::Memory);
            Some(fault.block)
        }
    }
}

#[test]
fn reports_each_growth_that_is_refused(rt: HostRuntime) {
    let file = file_of_nine();
    // The more memory there is, the later is the block at which memory runs out.
    let mut reported = [false; 10];
    for size in 0..80 {
        if let Some(block) = refused_block(&rt, &file, 16 * size) {
            assert!(rt; block < 10);
            reported[block as usize] = true;
        }
    }
    assert_same(&rt, &refused_block(&rt, &file, 16 * 80), &None);
    let growths = [
        false, true, true, true, false, true, false, false, false, true,
    ];
    assert_same(&rt, &reported, &growths);
}

// Counts the reported faults.
#[derive(Drop)]
struct Counts {
    reported: u32,
}

impl ReportSink<LoadFault> for Counts {
    ghost is_reported = { λ _ _ _. ⊤ };

    ghost has_stopped = { λ _. false };

    fn report(&mut self, _fault: LoadFault) -> Result<(), Stopped> {
        self.reported = self.reported.saturating_add(1);
        Ok(())
    }
}

// Asserts whether the expected page is known at these frames.
fn assert_undecided(rt: &impl Abort, judging: &Judging<'_>, frames: &[u32], undecided: bool) {
    for frame in frames {
        assert_same_for_case(rt, &judging.is_undecided(*frame), &undecided, frame);
    }
}

#[test]
fn keeps_what_can_be_judged_with_a_refused_subtitle(rt: HostRuntime) -> Result<(), Fail> {
    let refused = block(&head(TEN + 50, TEN + 100, 22), &[0xE6]);
    let mut file = [0; 1408];
    put(&mut file, 0, &file_of_two(&block(&HEAD, &HI), &refused));
    put(
        &mut file,
        1280,
        &block(&head(TEN + 120, TEN + 150, 22), &HI),
    );
    let mut counts = Counts { reported: 0 };
    let judged = load_all(
        rt.alloc(),
        &mut MemSource::new(&file),
        National::English,
        Layout::default(),
        Scope::whole(),
        &mut counts,
    )?
    .expect(&rt, "two subtitles to judge by");
    assert_same(&rt, &counts.reported, &1);
    assert_same(&rt, &judged.programme().len(), &2);
    let judging = judged.judging();
    assert_undecided(&rt, &judging, &[TEN + 50, TEN + 100, TEN + 119], true);
    assert_undecided(
        &rt,
        &judging,
        &[0, TEN, TEN + 49, TEN + 120, TEN + 150],
        false,
    );
    let known = Judging::known(judged.programme());
    assert_undecided(&rt, &known, &[0, TEN + 50, TEN + 100, TEN + 150], false);
    Ok(())
}

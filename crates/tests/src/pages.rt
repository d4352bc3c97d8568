//! The cells of pages, and the first cell in which two pages differ.
use crate::asserting::assert_same;
use ttx_page::{Page, count_differing_columns};

#[test]
fn sets_and_compares_rows(rt: HostRuntime) {
    let blank = Page::blank();
    let mut page = blank;
    assert_same(&rt, &page.cell(1, 0), &0x20);
    assert_same(&rt, &page.cell(24, 39), &0x20);
    assert_same(&rt, &page.first_difference(&blank), &None);

    let mut codes = [0x20; 40];
    codes[16] = 0x0D;
    page.set_row(22, &codes);
    assert_same(&rt, &page.cell(22, 16), &0x0D);
    assert_same(&rt, &page.row(22)[16], &0x0D);
    assert_same(&rt, &page.row(21)[16], &0x20);
    assert_same(&rt, &page.first_difference(&blank), &Some((22, 16)));

    page.set_row(1, &[0x7F; 40]);
    assert_same(&rt, &blank.first_difference(&page), &Some((1, 0)));
    assert!(rt; page != blank);
}

#[test]
fn counts_cells(rt: HostRuntime) {
    let blank = Page::blank();
    let mut codes = [0x20; 40];
    assert_same(&rt, &count_differing_columns(&codes, blank.row(1)), &0);
    codes[0] = 0x0D;
    codes[39] = 0x0A;
    assert_same(&rt, &count_differing_columns(&codes, blank.row(1)), &2);
    let mut page = blank;
    page.set_row(1, &codes);
    page.set_row(24, &codes);
    assert_same(&rt, &page.count_nonblank_cells(), &4);
    assert_same(&rt, &blank.count_nonblank_cells(), &0);
}

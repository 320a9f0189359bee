//! The numbers that the pages name, of the limits of machines and texts.

use sci_words::{
    CONTROLS, FORMAT_1_ENTRIES, FORMAT_1_NODES, FORMAT_1_SERIALS, LANE_CELLS, LINE_BYTES,
    MAX_EVENTS, MAX_INPUT_BYTES, MAX_LINES, MAX_NODES, MAX_OPERATIONS, MAX_SLOTS,
    MAX_TEXT_LINE_BYTES, MAX_TURNS, WORDS_PER_LINE,
};

const _: () = prove!(MAX_NODES == 16);

const _: () = prove!(MAX_LINES == 64);

const _: () = prove!(MAX_SLOTS == 8);

const _: () = prove!(WORDS_PER_LINE == 8);

const _: () = prove!(LINE_BYTES == 64);

const _: () = prove!(MAX_OPERATIONS == 65_536);

const _: () = prove!(CONTROLS == 65_536);

const _: () = prove!(MAX_TEXT_LINE_BYTES == 256);

const _: () = prove!(MAX_INPUT_BYTES == 134_217_728);

const _: () = prove!(MAX_EVENTS == 500_000);

const _: () = prove!(MAX_TURNS == 1_000_000_000);

const _: () = prove!(LANE_CELLS == 4);

const _: () = prove!(FORMAT_1_NODES == 8);

const _: () = prove!(FORMAT_1_SERIALS == 4_096);

const _: () = prove!(FORMAT_1_ENTRIES == 4_096);

//! Laws of the lines that are written.
ghost use Rattle.vcd_text.specs.TracedLines.{Same_changes, Some_changes, Traced_lines_become_changes};
ghost use Rattle.vcd_text.specs.Readable.{Fronts_go_on, No_text_ends, No_text_goes_on, One_list, Reads_back, Reads_once, Reads_or_refuses, Refuses_once};
ghost use Rattle.vcd_text.specs.WholeTexts.{WritesFront, WritesWhole};

use port_io::Sink;

/// What is written for the lines of a traced run, one after the other, are the lines of the changes that they tell, in order: the fourth part of
/// the text (IEEE 1364-2005, clause 18.2.1).
pub fn traced_lines_become_changes()
    ensures { Traced_lines_become_changes }
{}

/// A sink of a VCD text that has begun, and is then given the lines of a traced run, has written the text of the changes that these tell. Where a put
/// failed it has written a front of such a text, up to the line that broke.
pub fn texts_are_whole<O: Sink>()
    ensures whole { WritesWhole O.takes }
    ensures front { WritesFront O.takes O.breaks }
{}

/// The lines of a run tell one list of changes, and no other.
pub fn changes_are_told()
    ensures some { Some_changes }
    ensures same { Same_changes }
{}

/// The bytes of a text of a design are those of one list of changes: two lists have two texts.
pub fn texts_tell_changes()
    ensures { One_list }
{}

/// The text of a design and changes of it keeps the rules of a reader, and tells exactly these changes, in order: so `read` gives them, or wants
/// memory.
pub fn texts_read_back()
    ensures { Reads_back }
{}

/// By the rules of a reader a text tells one list of changes at the most, or is refused at one line at the most, and not both.
pub fn texts_are_read_once()
    ensures changes { Reads_once }
    ensures refused { Refuses_once }
    ensures apart { Reads_or_refuses }
{}

/// A line that is refused stands in no text of a design that can be traced and changes of it behind the lines before it: no such text begins with
/// the lines up to that one.
pub fn refused_lines_are_in_no_text()
    ensures { No_text_goes_on }
{}

/// A text that is refused where it ends is that of no design that can be traced and changes of it.
pub fn refused_ends_are_of_no_text()
    ensures { No_text_ends }
{}

/// Lines that keep the rules can go on to a whole text that does: so no line is taken behind which no text ends.
pub fn fronts_go_on()
    ensures { Fronts_go_on }
{}

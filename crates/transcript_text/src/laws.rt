// Laws of the definitions, over all transcripts.
ghost use Rattle.std.specs.Prelude.{◌≡◌, ◌<◌, ◌^◌, ℕ, List, length, Ok};
ghost use Rattle.plain_files.specs.Plain.{State};
ghost use Rattle.plain_files.specs.History as history;
ghost use Rattle.plain_files.specs.History.{Legal, Serves};
ghost use Rattle.script_words.specs.declared.script.Lane.{Lane};
ghost use Rattle.script_words.specs.Lanes.{lane_names, requests_by_lane};
ghost use Rattle.transcript_text.specs.Print.{Counts, print};
ghost use Rattle.transcript_text.specs.Transcripts.{Entry, read_transcript};
ghost use Rattle.transcript_text.specs.Again.{text_of, entries_of, AreReplies, AreEntries, AreCounts, AreLanes};

/// A law: the transcript of entries reads back as these entries; and what is printed of a legal history that serves
/// the lanes reads back as its entries.
pub fn transcripts_read_again()
    ensures entries { (lanes : List Lane) (entries : List Entry) (counts : Counts)
        → AreLanes lanes → AreEntries lanes entries → AreCounts counts
        → read_transcript (text_of (lane_names lanes) entries counts) lanes ≡ Ok entries }
    ensures histories { (lanes : List Lane) (h : List history.Entry) (s last : State) (counts : Counts)
        → AreLanes lanes → Serves (requests_by_lane lanes) h → Legal s h last → AreReplies h → length h < 2 ^ 32
        → AreCounts counts
        → read_transcript (print (lane_names lanes) h counts) lanes ≡ Ok (entries_of h) }
{}

/// A law: what is read of a transcript are entries that can be read, so they read back from their own transcript.
pub fn entries_are_in_form()
    ensures form { (lanes : List Lane) (text : List ℕ) (entries : List Entry)
        → read_transcript text lanes ≡ Ok entries
        → AreEntries lanes entries }
    ensures again { (lanes : List Lane) (text : List ℕ) (entries : List Entry) (counts : Counts)
        → AreLanes lanes → AreCounts counts → read_transcript text lanes ≡ Ok entries
        → read_transcript (text_of (lane_names lanes) entries counts) lanes ≡ Ok entries }
{}

//! Laws: what is printed in a form is read back by it.

ghost use Rattle.m3_script.specs.CommandLaws as commands;
ghost use Rattle.m3_script.specs.GrantLaws as grants;
ghost use Rattle.m3_script.specs.SetupLaws as setup_lines;
ghost use Rattle.m3_script.specs.EventLaws as events;
ghost use Rattle.m3_script.specs.Built.{EventsOfScripts, SetupsOfScripts};

/// Commands that are printed are read back, form by form.
pub fn commands_read_back()
    ensures send_form { commands.SendAgain }
    ensures call_form { commands.CallAgain }
    ensures reply_form { commands.ReplyAgain }
    ensures fetch_form { commands.FetchAgain }
    ensures acknowledge_form { commands.AcknowledgeAgain }
    ensures read_form { commands.ReadAgain }
    ensures write_form { commands.WriteAgain }
{}

/// Grants that are printed are read back, form by form.
pub fn grants_read_back()
    ensures recv_form { grants.RecvAgain }
    ensures send_form { grants.SendAgain }
    ensures range_form { grants.RangeAgain }
    ensures part_form { grants.PartAgain }
    ensures read_only_form { grants.RAgain }
    ensures write_only_form { grants.WAgain }
    ensures read_write_form { grants.RwAgain }
{}

/// Setup lines that are printed are read back, form by form.
pub fn setup_lines_read_back()
    ensures machine_form { setup_lines.MachineAgain }
    ensures act_line_form { setup_lines.ActLineAgain }
    ensures quantum_form { setup_lines.QuantumAgain }
    ensures files_form { setup_lines.FilesAgain }
    ensures await_item_form { setup_lines.AwaitItemAgain }
    ensures item_form { setup_lines.ItemAgain }
    ensures writer_form { setup_lines.WriterAgain }
    ensures reader_form { setup_lines.ReaderAgain }
    ensures box_form { setup_lines.BoxAgain }
    ensures grant_line_form { setup_lines.GrantLineAgain }
{}

/// Events that are printed are read back, form by form, and so are turns with their moves.
pub fn events_read_back()
    ensures take_form { events.TakeAgain }
    ensures do_form { events.DoAgain }
    ensures tend_form { events.TendAgain }
    ensures turn_form { events.TurnAgain }
    ensures close_form { events.CloseAgain }
    ensures switch_form { events.SwitchAgain }
    ensures grant_form { events.GrantAgain }
    ensures revoke_form { events.RevokeAgain }
    ensures create_form { events.CreateAgain }
    ensures extend_form { events.ExtendAgain }
    ensures remove_form { events.RemoveAgain }
    ensures open_form { events.OpenAgain }
    ensures close_file_form { events.CloseFileAgain }
    ensures entry_form { events.EntryAgain }
    ensures move_form { events.MoveAgain }
    ensures idle_move_form { events.IdleMoveAgain }
    ensures await_move_form { events.AwaitMoveAgain }
    ensures quantum_move_form { events.QuantumMoveAgain }
    ensures end_move_form { events.EndMoveAgain }
    ensures command_move_form { events.CommandMoveAgain }
{}

/// A line that a script may have is read as the readers of all lines read it.
pub fn scripts_have_the_same_forms()
    ensures events { EventsOfScripts }
    ensures setup_lines { SetupsOfScripts }
{}

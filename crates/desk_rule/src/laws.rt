//! Laws of the rule: the effect of each step, and the accounts of each lane.

ghost use Rattle.desk_rule.specs.Events.{SitIsEvent, AskIsEvent, CollectIsEvent, MissIsEvent, PostIsEvent, TakeIsEvent, LookIsNoEvent, RiseIsEvent, AccountsFit};

/// Each exchange on a lane's word is one event of the world, in what words and views show, and changes the view of one
/// seat; a take that finds nothing is not an event.
pub fn exchanges_are_events<N>()
    ensures sit { SitIsEvent N }
    ensures ask { AskIsEvent N }
    ensures collect { CollectIsEvent N }
    ensures miss { MissIsEvent N }
    ensures post { PostIsEvent N }
    ensures take { TakeIsEvent N }
    ensures look { LookIsNoEvent N }
    ensures rise { RiseIsEvent N }
{}

/// Between any two steps, the views of the lane's seat and of the round's seat agree with the lane's word: amount k
/// posted answers ask k, and is amount k taken.
pub fn accounts_fit<N>()
    ensures accounts { AccountsFit N }
{}

//! The fields of a packet, all of them (chapter 3).

ghost use Rattle.std.specs.Prelude.{◌≡◌, ◌<◌, ◌^◌, length, IfOk};
ghost use Rattle.mq_decode.specs.Prelude.{Same, present_at, answer_at, connack_at, only_identifier_at, body_at, LiesAtEnd, packet_of};

use crate::connect::connect;
use crate::fault::{BadField, FaultKind};
use crate::fields::{bad_at, end, identifier};
use crate::kind::Kind;
use crate::list_views::{CodesView, FiltersView, RequestsView};
use crate::lists::tested_list;
use crate::packet_view::PacketView;
use crate::publish::publish;
use mq_packet::{ConnAck, PacketId, RefusalCode, Request, SubAckCode};
use mq_topic::TopicFilter;

fn session_present(bytes: &[u8]) -> Result<(bool, &[u8]), BadField>
    ensures { Same (λ x. (x.0, x.1.now)) result (present_at bytes.now) }
{
    match bytes {
        [] => bad_at(FaultKind::PastEnd, bytes),
        [0, rest @ ..] => Ok((false, rest)),
        [1, rest @ ..] => Ok((true, rest)),
        [_, ..] => bad_at(FaultKind::ForbiddenFlags, bytes),
    }
}

fn answer(session_present: bool, bytes: &[u8]) -> Result<(ConnAck, &[u8]), BadField>
    ensures { Same (λ x. (x.0, x.1.now)) result (answer_at session_present bytes.now) }
{
    let Some((code, rest)) = bytes.split_first() else {
        return bad_at(FaultKind::PastEnd, bytes);
    };
    if *code == 0 {
        return Ok((ConnAck::Accepted { session_present }, rest));
    }
    if session_present {
        return bad_at(FaultKind::ForbiddenCode, bytes);
    }
    match RefusalCode::from_number(*code) {
        Some(code) => Ok((ConnAck::Refused(code), rest)),
        None => bad_at(FaultKind::ForbiddenCode, bytes),
    }
}

#[tactic(auto, unfolding(crate::specs::Bodies::connack_at))]
fn connack(bytes: &[u8]) -> Result<ConnAck, BadField>
    ensures { Same (λ x. x) result (connack_at bytes.now) }
{
    let (present, rest) = session_present(bytes)?;
    let (answer, rest) = answer(present, rest)?;
    end(rest)?;
    Ok(answer)
}

#[tactic(auto, unfolding(crate::specs::Bodies::only_identifier_at))]
fn only_identifier(bytes: &[u8]) -> Result<PacketId, BadField>
    ensures { Same (λ x. x) result (only_identifier_at bytes.now) }
{
    let (id, rest) = match identifier(bytes) {
        Ok(field) => field,
        Err(bad) => return Err(bad),
    };
    end(rest)?;
    Ok(id)
}

/// All fields of a packet of this kind.
pub(crate) fn body(kind: Kind, bytes: &[u8]) -> Result<PacketView<'_>, BadField>
    requires { length bytes.now < 2 ^ 28 }
    ensures read { Same packet_of result (body_at kind bytes.now) }
    ensures end { IfOk result (LiesAtEnd bytes.now) }
{
    match kind {
        Kind::Connect => match connect(bytes) {
            Ok(connect) => Ok(PacketView::Connect(connect)),
            Err(bad) => Err(bad),
        },
        Kind::ConnAck => Ok(PacketView::ConnAck(connack(bytes)?)),
        Kind::Publish(flags) => match publish(flags, bytes) {
            Ok(publish) => Ok(PacketView::Publish(publish)),
            Err(bad) => Err(bad),
        },
        Kind::PubAck => Ok(PacketView::PubAck(only_identifier(bytes)?)),
        Kind::PubRec => Ok(PacketView::PubRec(only_identifier(bytes)?)),
        Kind::PubRel => Ok(PacketView::PubRel(only_identifier(bytes)?)),
        Kind::PubComp => Ok(PacketView::PubComp(only_identifier(bytes)?)),
        Kind::Subscribe => subscribe(bytes),
        Kind::SubAck => suback(bytes),
        Kind::Unsubscribe => unsubscribe(bytes),
        Kind::UnsubAck => Ok(PacketView::UnsubAck(only_identifier(bytes)?)),
        Kind::PingReq => {
            end(bytes)?;
            Ok(PacketView::PingReq)
        }
        Kind::PingResp => {
            end(bytes)?;
            Ok(PacketView::PingResp)
        }
        Kind::Disconnect => {
            end(bytes)?;
            Ok(PacketView::Disconnect)
        }
    }
}

fn subscribe(bytes: &[u8]) -> Result<PacketView<'_>, BadField>
    ensures read { Same packet_of result (body_at Kind.Subscribe bytes.now) }
    ensures end { IfOk result (LiesAtEnd bytes.now) }
{
    match tested_list::<Request>(bytes) {
        Ok((id, list)) => Ok(PacketView::Subscribe {
            id,
            requests: RequestsView::new(list),
        }),
        Err(bad) => Err(bad),
    }
}

fn suback(bytes: &[u8]) -> Result<PacketView<'_>, BadField>
    ensures read { Same packet_of result (body_at Kind.SubAck bytes.now) }
    ensures end { IfOk result (LiesAtEnd bytes.now) }
{
    match tested_list::<SubAckCode>(bytes) {
        Ok((id, list)) => Ok(PacketView::SubAck {
            id,
            codes: CodesView::new(list),
        }),
        Err(bad) => Err(bad),
    }
}

fn unsubscribe(bytes: &[u8]) -> Result<PacketView<'_>, BadField>
    ensures read { Same packet_of result (body_at Kind.Unsubscribe bytes.now) }
    ensures end { IfOk result (LiesAtEnd bytes.now) }
{
    match tested_list::<TopicFilter>(bytes) {
        Ok((id, list)) => Ok(PacketView::Unsubscribe {
            id,
            filters: FiltersView::new(list),
        }),
        Err(bad) => Err(bad),
    }
}
